//! The present blocks of the plain store, with their number in each shard.
ghost use Rattle.std.specs.Prelude.{◌≡◌, ◌==◌, ◌<◌, [], count_by, filter, not, is_some, IfOk, OnOk};
ghost use Rattle.std.specs.BTreeMap.{is_at};
ghost use Rattle.std.specs.Map.{lookup};
ghost use Rattle.hs_limits.specs.Shape.{IsShape, shard_of};
ghost use Rattle.hs_model.specs.Store.{address_cmp, block_of, blocks_with};
ghost use Rattle.hs_model.specs.Swept.{removes};

use hs_limits::{Address, Shape, shard_of};
use hs_model::{ModelFault, Run, StoredBlock, removes};
use std::alloc::Global;
use std::collections::{BTreeMap, BTreeSet};
use std::marker::Model;

/// The present blocks by address, and how many of them each shard has.
#[derive(Drop)]
pub(crate) struct Blocks {
    items: BTreeMap<Address, StoredBlock>,
    counts: Vec<usize>,
    shape: Shape,
}

impl Model for Blocks {
    ghost use Rattle.std.specs.Prelude.{◌≡◌, ◌==◌, length, count_by};
    ghost use Rattle.hs_limits.specs.Shape.{IsShape, shard_of};
    ghost use Rattle.hs_plain.specs.Counted.{CountedBlocks, AreCounts};

    ghost Value = { CountedBlocks };

    ghost view = { λ a. record { shards = a.shape.shards; entries = a.items.entries } };

    ghost invariant = { λ a. record {
      shape : IsShape a.shape;
      shards : length a.counts.items ≡ a.shape.shards;
      counts : AreCounts a.counts.items
          (λ shard. count_by (λ e. shard_of a.shape.shards e.0 == shard) a.items.entries);
    } };
}

impl Blocks {
    /// No blocks.
    pub(crate) fn new(alloc: Global, shape: Shape) -> Result<Blocks, ModelFault>
        requires { IsShape shape }
        ensures { IfOk result (λ blocks. blocks ≡ record { shards = shape.shards; entries = [] }) }
    {
        Ok(Blocks {
            items: BTreeMap::new(alloc),
            counts: vec![in alloc; 0; usize::from(shape.shards)]?,
            shape,
        })
    }

    /// The blocks by address.
    pub(crate) fn as_map(&self) -> &BTreeMap<Address, StoredBlock>
        ensures { result.now.entries ≡ self.now.entries }
    {
        &self.items
    }

    /// How many blocks a shard has.
    pub(crate) fn count_in(&self, shard: u8) -> usize
        requires { shard < self.now.shards }
        ensures { result
            ≡ count_by (λ e. shard_of self.now.shards e.0 == shard) self.now.entries }
    {
        self.counts[usize::from(shard)]
    }

    /// Adds a block, unless one of this address is there. Whether one was. Without memory the
    /// blocks stay as they were.
    pub(crate) fn add(&mut self, address: Address, stored: StoredBlock) -> Result<bool, ModelFault>
        ensures present { let found = lookup (is_at (address_cmp address)) self.old.entries in
            IfOk result (λ present. present ≡ is_some found) }
        ensures entries { let found = lookup (is_at (address_cmp address)) self.old.entries in
            let block = block_of stored in
            OnOk result (self.new.entries
            ≡ blocks_with found self.old.entries address block stored.born) }
        ensures shards { self.new.shards ≡ self.old.shards }
    {
        if self.items.contains_key(&address) {
            return Ok(true);
        }
        let shard = usize::from(shard_of(&address, self.shape));
        let Some(count) = self.counts[shard].checked_add(1) else {
            return Err(ModelFault::NoMemory);
        };
        self.items.insert(address, stored)?;
        self.counts[shard] = count;
        Ok(false)
    }

    /// Removes what a sweep of a shard removes, where these were seen from its anchors. It goes
    /// over all blocks.
    pub(crate) fn sweep(&mut self, run: Run, seen: &BTreeSet<Address>)
        requires shape { IsShape run.shape }
        requires same { run.shape.shards ≡ self.old.shards }
        requires shard { run.shard < self.old.shards }
        ensures entries { self.new.entries
            ≡ filter (λ e. not (removes run seen.now.keys e.0 e.1.born)) self.old.entries }
        ensures shards { self.new.shards ≡ self.old.shards }
    {
        remove_blocks(&mut self.items, run, seen);
        let count = count_blocks(&self.items, run.shape, run.shard);
        self.counts[usize::from(run.shard)] = count;
    }
}

/// How many blocks a shard has, counted one by one.
fn count_blocks(blocks: &BTreeMap<Address, StoredBlock>, shape: Shape, shard: u8) -> usize
    requires { IsShape shape }
    ensures { result ≡ count_by (λ e. shard_of shape.shards e.0 == shard) blocks.now.entries }
{
    blocks
        .iter()
        .filter(|(address, _)| shard_of(address, shape) == shard)
        .count()
}

/// Removes the blocks that a sweep removes, where these were seen from its anchors.
fn remove_blocks(blocks: &mut BTreeMap<Address, StoredBlock>, run: Run, seen: &BTreeSet<Address>)
    requires { IsShape run.shape }
    ensures { blocks.new.entries
        ≡ filter (λ e. not (removes run seen.now.keys e.0 e.1.born)) blocks.old.entries }
{
    blocks.retain(|address, stored| !removes(run, seen, address, stored.born));
}
