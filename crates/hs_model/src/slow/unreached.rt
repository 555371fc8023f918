//! What a sweep would remove.
ghost use Rattle.std.specs.Prelude.{◌≡◌, ◌+◌, ◌<◌, map, filter, nat_le, IfOk};
ghost use Rattle.hs_limits.specs.Shape.{IsShape};
ghost use Rattle.hs_model.specs.Swept.{removes};
ghost use Rattle.hs_model.specs.Plain.{IsPlain, plain_of, root_of};
ghost use Rattle.hs_model.specs.Reach.{unreachable, anchors, counts_in};

use super::pointing::{has, pointing, reach};
use crate::{ModelFault, PlainBlock, PlainRoot, PlainStore};
use hs_limits::{Address, Held, ListOf, Shape, shard_of};
use std::alloc::Global;
use std::collections::BTreeSet;

/// The addresses that the sweep of an epoch's run would remove from a shard, ascending.
pub fn unreachable(
    alloc: Global,
    store: &PlainStore,
    epoch: u64,
    shard: u8,
) -> Result<ListOf<Address>, ModelFault>
    requires plain { IsPlain store.now }
    requires shard { shard < store.now.shape.shards }
    ensures { IfOk result (λ list. list ≡ unreachable (plain_of store.now) epoch shard) }
{
    let left = pointing(alloc, store.blocks.as_slice())?;
    let anchors = anchors(alloc, store, epoch)?;
    let seen = reach(alloc, left, anchors.as_slice())?;
    let run = Run {
        shape: store.shape,
        epoch,
        shard,
    };
    let list = swept(alloc, store.blocks.as_slice(), run, &seen)?;
    Ok(ListOf::from_vec(list))
}

/// The sweep of an epoch's run at a shard.
#[derive(Clone, Copy)]
pub struct Run {
    pub shape: Shape,
    pub epoch: u64,
    pub shard: u8,
}

/// The addresses of the blocks that a sweep removes, where these were seen from the anchors.
fn swept(
    alloc: Global,
    blocks: &[PlainBlock],
    run: Run,
    seen: &BTreeSet<Address>,
) -> Result<Vec<Address>, ModelFault>
    requires { IsShape run.shape }
    ensures { IfOk result (λ found. found.items ≡ map (λ block. block.address) (filter
        (λ block. removes run seen.now.keys block.address block.born) blocks.now)) }
{
    Ok(
        blocks
            .iter()
            .filter(|block| removes(run, seen, &block.address, block.born))
            .map(|block| block.address)
            .collect(alloc)?,
    )
}

/// Whether a sweep removes the block of an address, where these were seen from the anchors.
pub fn removes(run: Run, seen: &BTreeSet<Address>, address: &Address, born: u64) -> bool
    requires { IsShape run.shape }
    ensures { result ≡ removes run seen.now.keys address.now born }
{
    shard_of(address, run.shape) == run.shard && born < run.epoch && !has(seen, address)
}

/// The anchors of an epoch's run.
fn anchors(alloc: Global, store: &PlainStore, epoch: u64) -> Result<Vec<Address>, ModelFault>
    ensures { IfOk result (λ found. found.items ≡ anchors (plain_of store.now) epoch) }
{
    let mut anchors = rooted(alloc, store.roots.as_slice(), epoch)?;
    let given = given(alloc, store.given.as_slice(), epoch)?;
    anchors.extend_from_slice(given.as_slice())?;
    Ok(anchors)
}

/// The addresses of the roots that count in an epoch's run.
fn rooted(alloc: Global, roots: &[PlainRoot], epoch: u64) -> Result<Vec<Address>, ModelFault>
    ensures { IfOk result (λ found. found.items
        ≡ map (λ root. root.address) (filter (λ root. counts_in epoch (root_of root)) roots.now)) }
{
    Ok(
        roots
            .iter()
            .filter(|root| counts_in(epoch, root))
            .map(|root| root.address)
            .collect(alloc)?,
    )
}

/// The addresses that a write gave in the epoch before an epoch's run or later.
fn given(alloc: Global, given: &[Held], epoch: u64) -> Result<Vec<Address>, ModelFault>
    ensures { IfOk result (λ found. found.items
        ≡ map (λ held. held.address) (filter (λ held. nat_le epoch (held.epoch + 1)) given.now)) }
{
    Ok(
        given
            .iter()
            .filter(|held| is_since(epoch, held.epoch))
            .map(|held| held.address)
            .collect(alloc)?,
    )
}

/// Whether a root counts in an epoch's run.
fn counts_in(epoch: u64, root: &PlainRoot) -> bool
    ensures { result ≡ counts_in epoch (root_of root.now) }
{
    match root.dropped {
        None => true,
        Some(dropped) => is_since(epoch, dropped),
    }
}

/// Whether something of an epoch counts in a run: it is of the epoch before the run or later.
pub fn is_since(run: u64, epoch: u64) -> bool
    ensures { result ≡ nat_le run (epoch + 1) }
{
    run.saturating_sub(1) <= epoch
}
