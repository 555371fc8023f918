//! What each block points to, and what is reached over that.
ghost use Rattle.std.specs.Prelude.{◌≡◌, map, IfOk};
ghost use Rattle.std.specs.List.Sorted.{IsStrictlySortedBy};
ghost use Rattle.std.specs.Map.{keys_of};
ghost use Rattle.hs_model.specs.Listed.{IsListOf};
ghost use Rattle.hs_model.specs.Plain.{entry_of};
ghost use Rattle.hs_model.specs.Pointing.{pointing_store, pointers_in};
ghost use Rattle.hs_model.specs.Reach.{IsReached, is_among};
ghost use Rattle.hs_model.specs.Store.{address_cmp};

use crate::{ModelFault, PlainBlock};
use hs_limits::{Address, ListOf};
use std::alloc::Global;
use std::collections::{BTreeMap, BTreeSet};

/// What each present block points to, by address.
pub type Pointing = BTreeMap<Address, ListOf<Address>>;

/// What the blocks of a list point to. Their addresses ascend.
pub(super) fn pointing(alloc: Global, blocks: &[PlainBlock]) -> Result<Pointing, ModelFault>
    requires { IsStrictlySortedBy address_cmp (keys_of (map entry_of blocks.now)) }
    ensures { IfOk result
        (λ pointing. pointing.entries ≡ pointers_in (map entry_of blocks.now)) }
{
    let mut pointing = BTreeMap::new(alloc);
    for block in blocks {
        pointing.insert(block.address, block.pointers.copy(alloc)?)?;
    }
    Ok(pointing)
}

/// The addresses that some addresses reach. Each block is followed once: `left` has those that are
/// yet to come, `work` the addresses that are yet to be looked at.
pub fn reach(
    alloc: Global,
    mut left: Pointing,
    from: &[Address],
) -> Result<BTreeSet<Address>, ModelFault>
    ensures { IfOk result
        (λ seen. IsListOf seen.keys (IsReached (pointing_store left.entries) from.now)) }
{
    let mut seen = BTreeSet::new(alloc);
    let mut work = Vec::from_slice(alloc, from)?;
    while let Some(address) = work.pop() {
        seen.insert(address)?;
        if let Some(pointers) = left.remove(&address) {
            work.extend_from_slice(pointers.as_slice())?;
        }
    }
    Ok(seen)
}

/// Whether a set has an address.
pub(crate) fn has(set: &BTreeSet<Address>, address: &Address) -> bool
    ensures { result ≡ is_among set.now.keys address.now }
{
    set.contains(address)
}
