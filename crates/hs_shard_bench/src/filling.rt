//! Blocks that are stored, and roots that are put and dropped.
use crate::entries::{key_of, spelling};
use crate::plan::{Plan, address_of};
use crate::taking::take;
use hs_entry::Entry;
use hs_limits::{LAST_EPOCH, Limits, Shape};
use hs_shard::{Catalogue, ShardFault};
use std::alloc::{AllocError, Global};

/// Spells each block, and drops it again. How many there were.
pub fn make(alloc: Global, plan: Plan) -> Result<u32, AllocError> {
    let mut made = 0u32;
    for block in 0..plan.blocks() {
        let bytes = spelling(alloc, plan, block)?;
        if !bytes.as_slice().is_empty() {
            made = made.saturating_add(1);
        }
    }
    Ok(made)
}

/// Stores all blocks, and puts a root on each that no other points to.
pub fn fill(alloc: Global, catalogue: &mut Catalogue, plan: Plan) -> Result<(), ShardFault> {
    store_all(alloc, catalogue, plan)?;
    put_root(alloc, catalogue, plan.groups(), plan.last_kept())?;
    put_roots(alloc, catalogue, plan)
}

/// The catalogue of the only shard before its first entry.
pub fn empty(alloc: Global) -> Catalogue {
    let shape = Shape {
        shards: 1,
        copies: 1,
    };
    Catalogue::new(alloc, shape, 0, Limits::greatest())
}

/// Stores all blocks.
fn store_all(alloc: Global, catalogue: &mut Catalogue, plan: Plan) -> Result<(), ShardFault> {
    for block in 0..plan.blocks() {
        store(alloc, catalogue, plan, block)?;
    }
    Ok(())
}

/// Stores a block, unless its number is taken.
fn store(
    alloc: Global,
    catalogue: &mut Catalogue,
    plan: Plan,
    block: u32,
) -> Result<(), ShardFault> {
    let number = u64::from(block) + 1;
    if catalogue.pointers(number).is_some() {
        return Ok(());
    }
    let bytes = spelling(alloc, plan, block)?;
    let entry = Entry::Block {
        op: 1,
        least: LAST_EPOCH,
        bytes,
    };
    take(catalogue, number, entry, Some(address_of(block)))?;
    Ok(())
}

/// Keeps the last block of each group.
fn put_roots(alloc: Global, catalogue: &mut Catalogue, plan: Plan) -> Result<(), ShardFault> {
    for group in 0..plan.groups() {
        put_root(alloc, catalogue, group, plan.head(group))?;
    }
    Ok(())
}

/// Keeps a block under the key of a number.
fn put_root(
    alloc: Global,
    catalogue: &mut Catalogue,
    number: u32,
    block: u32,
) -> Result<(), ShardFault> {
    if let Some(key) = key_of(alloc, number)? {
        let entry = Entry::Root {
            op: 1,
            held: LAST_EPOCH,
            address: address_of(block),
            key,
        };
        take(catalogue, 0, entry, None)?;
    }
    Ok(())
}

/// Drops the roots of so many groups.
pub fn drop_roots(alloc: Global, catalogue: &mut Catalogue, groups: u32) -> Result<(), ShardFault> {
    for group in 0..groups {
        drop_root(alloc, catalogue, group)?;
    }
    Ok(())
}

/// Drops the root under the key of a number.
fn drop_root(alloc: Global, catalogue: &mut Catalogue, number: u32) -> Result<(), ShardFault> {
    if let Some(key) = key_of(alloc, number)? {
        take(catalogue, 0, Entry::Drop { op: 1, key }, None)?;
    }
    Ok(())
}
