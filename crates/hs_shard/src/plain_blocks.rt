//! The blocks of a plain store, and what was given, by address while those of a shard are added.
ghost use Rattle.std.specs.Prelude.{◌≡◌, IfOk, OnOk};
ghost use Rattle.hs_shard.specs.Adding.{AscendBlocks, AscendGiven, listed_blocks, listed_given, outlined};
ghost use Rattle.hs_shard.specs.Plain.{add_blocks, add_given};

use crate::Facts;
use hs_limits::{Address, Held, ListOf};
use hs_model::PlainBlock;
use std::alloc::{AllocError, Global};
use std::collections::BTreeMap;

/// What a block points to, and the epoch in which it was born.
#[derive(Drop)]
pub(crate) struct Outline {
    pointers: ListOf<Address>,
    born: u64,
}

/// Some blocks by address.
pub(crate) fn blocks_by_address(
    alloc: Global,
    blocks: ListOf<PlainBlock>,
) -> Result<BTreeMap<Address, Outline>, AllocError>
    requires { AscendBlocks blocks }
    ensures { IfOk result (λ outlines. outlined outlines.entries ≡ listed_blocks blocks) }
{
    let mut outlines = BTreeMap::new(alloc);
    let mut rest = blocks.into_vec();
    while let Some(block) = rest.pop() {
        let PlainBlock {
            address,
            pointers,
            born,
        } = block;
        outlines.insert(address, Outline { pointers, born })?;
    }
    Ok(outlines)
}

/// Adds a shard's blocks.
pub(crate) fn add_blocks(
    alloc: Global,
    known: &BTreeMap<Address, Facts>,
    outlines: &mut BTreeMap<Address, Outline>,
) -> Result<(), AllocError>
    ensures { OnOk result (outlined outlines.new.entries
        ≡ add_blocks known.now.entries (outlined outlines.old.entries)) }
{
    for (address, facts) in known {
        let outline = Outline {
            pointers: facts.pointers.copy(alloc)?,
            born: facts.born,
        };
        outlines.insert(*address, outline)?;
    }
    Ok(())
}

/// The blocks as a list, ascending by address.
pub(crate) fn blocks_in_order(
    alloc: Global,
    outlines: BTreeMap<Address, Outline>,
) -> Result<ListOf<PlainBlock>, AllocError>
    ensures value { IfOk result (λ blocks. listed_blocks blocks ≡ outlined outlines.entries) }
    ensures ordered { IfOk result (λ blocks. AscendBlocks blocks) }
{
    let mut list = ListOf::new(alloc);
    for (address, outline) in outlines {
        let Outline { pointers, born } = outline;
        list.push(PlainBlock {
            address,
            pointers,
            born,
        })?;
    }
    Ok(list)
}

/// What was given, by address.
pub(crate) fn given_by_address(
    alloc: Global,
    given: ListOf<Held>,
) -> Result<BTreeMap<Address, u64>, AllocError>
    requires { AscendGiven given }
    ensures { IfOk result (λ epochs. epochs.entries ≡ listed_given given) }
{
    let mut epochs = BTreeMap::new(alloc);
    let mut rest = given.into_vec();
    while let Some(held) = rest.pop() {
        epochs.insert(held.address, held.epoch)?;
    }
    Ok(epochs)
}

/// Adds when each of a shard's blocks was given last.
pub(crate) fn add_given(
    known: &BTreeMap<Address, Facts>,
    epochs: &mut BTreeMap<Address, u64>,
) -> Result<(), AllocError>
    ensures { OnOk result (epochs.new.entries ≡ add_given known.now.entries epochs.old.entries) }
{
    for (address, facts) in known {
        epochs.insert(*address, facts.mark)?;
    }
    Ok(())
}

/// What was given as a list, ascending by address.
pub(crate) fn given_in_order(
    alloc: Global,
    epochs: BTreeMap<Address, u64>,
) -> Result<ListOf<Held>, AllocError>
    ensures value { IfOk result (λ given. listed_given given ≡ epochs.entries) }
    ensures ordered { IfOk result (λ given. AscendGiven given) }
{
    let mut given = ListOf::new(alloc);
    for (address, epoch) in epochs {
        given.push(Held { address, epoch })?;
    }
    Ok(given)
}
