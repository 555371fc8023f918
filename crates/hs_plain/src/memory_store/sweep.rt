//! Sweeping an epoch of the plain store.
ghost use Rattle.std.specs.Prelude.{◌≡◌, ◌+◌, ◌<◌, length, map, filter, nat_le, IsTrue, IfOk, OnOk};
ghost use Rattle.std.specs.List.Sorted.{IsStrictlySortedBy};
ghost use Rattle.std.specs.Map.{keys_of};
ghost use Rattle.hs_limits.specs.declared.address.Address.{Address};
ghost use Rattle.hs_limits.specs.declared.limits.Limits.{Limits};
ghost use Rattle.hs_model.specs.Inner.{may_sweep, sweep};
ghost use Rattle.hs_model.specs.Pointing.{pointers_in};
ghost use Rattle.hs_model.specs.Reach.{anchors, is_among};
ghost use Rattle.hs_model.specs.Run.{step, sweeps};
ghost use Rattle.hs_model.specs.Store.{address_cmp};

use super::MemoryStore;
use crate::Answer;
use hs_limits::Address;
use hs_model::{Deed, ModelFault, Pointing, Reply, Run, StoredBlock, is_since, reach};
use std::alloc::Global;
use std::collections::BTreeMap;

impl MemoryStore {
    /// Whether there is such a shard, and it may sweep its epoch.
    pub fn may_sweep(&self, shard: u8) -> bool
        ensures found { IsTrue result
            → (shard < length self.now.epochs) × IsTrue (may_sweep self.now shard) }
        ensures only { shard < length self.now.epochs
            → IsTrue (may_sweep self.now shard) → IsTrue result }
    {
        if usize::from(shard) >= self.epochs.len() {
            return false;
        }
        self.is_due(shard)
    }

    /// Whether a shard has not swept its epoch, and no shard is behind it.
    fn is_due(&self, shard: u8) -> bool
        requires { shard < length self.now.epochs }
        ensures { result ≡ may_sweep self.now shard }
    {
        let shard = usize::from(shard);
        let epoch = self.epochs[shard];
        self.swept[shard] < epoch && self.none_below(epoch)
    }

    /// A shard sweeps its epoch: what was born before it and no anchor reaches goes. The only fault
    /// is NoMemory, also where more blocks go than a reply can tell; after it nothing is said of
    /// the store.
    pub fn sweep(&mut self, shard: u8) -> Result<Answer, ModelFault>
        requires shard { shard < length self.old.epochs }
        requires may { IsTrue (may_sweep self.old shard) }
        ensures reply { IfOk result (λ answer. (limits : Limits)
            → answer.reply ≡ (step limits self.old (sweeps shard)).reply) }
        ensures deed { IfOk result (λ answer. (limits : Limits)
            → answer.deed ≡ (step limits self.old (sweeps shard)).deed) }
        ensures store { OnOk result (self.new ≡ sweep self.old shard) }
    {
        let epoch = self.epochs[usize::from(shard)];
        let before = self.block_count();
        self.remove(shard)?;
        let Ok(removed) = u32::try_from(before - self.block_count()) else {
            return Err(ModelFault::NoMemory);
        };
        Ok(Answer {
            reply: Reply::Sweep { epoch, removed },
            deed: Deed::Swept { shard },
        })
    }

    /// Removes what the sweep of a shard's epoch removes, and what was given there.
    fn remove(&mut self, shard: u8) -> Result<(), ModelFault>
        requires { shard < length self.old.epochs }
        ensures { OnOk result (self.new ≡ sweep self.old shard) }
    {
        let epoch = self.epochs[usize::from(shard)];
        let from = self.anchors(epoch)?;
        let left = pointing(self.alloc, self.blocks.as_map())?;
        let seen = reach(self.alloc, left, from.as_slice())?;
        let run = Run {
            shape: self.shape,
            epoch,
            shard,
        };
        self.blocks.sweep(run, &seen);
        remove_given(&mut self.given, self.blocks.as_map());
        self.swept[usize::from(shard)] = epoch;
        Ok(())
    }

    /// The anchors of an epoch's run, in no order.
    fn anchors(&self, epoch: u64) -> Result<Vec<Address>, ModelFault>
        ensures { IfOk result (λ found. (a : Address)
            → is_among found.items a ≡ is_among (anchors self.now epoch) a) }
    {
        let mut anchors = self.roots.counting(epoch)?;
        let given = given(self.alloc, &self.given, epoch)?;
        anchors.extend_from_slice(given.as_slice())?;
        Ok(anchors)
    }
}

/// The addresses that a write gave in the epoch before an epoch's run or later.
fn given(
    alloc: Global,
    given: &BTreeMap<Address, u64>,
    epoch: u64,
) -> Result<Vec<Address>, ModelFault>
    ensures { IfOk result (λ found. found.items
        ≡ map (λ e. e.0) (filter (λ e. nat_le epoch (e.1 + 1)) given.now.entries)) }
{
    Ok(
        given
            .iter()
            .filter(|(_, given)| is_since(epoch, **given))
            .map(|(address, _)| *address)
            .collect(alloc)?,
    )
}

/// What the present blocks point to.
fn pointing(alloc: Global, blocks: &BTreeMap<Address, StoredBlock>) -> Result<Pointing, ModelFault>
    ensures pointers { IfOk result
        (λ pointing. pointing.entries ≡ pointers_in blocks.now.entries) }
    ensures ascending { IsStrictlySortedBy address_cmp (keys_of blocks.now.entries) }
{
    let mut pointing = BTreeMap::new(alloc);
    for (address, stored) in blocks {
        pointing.insert(*address, stored.pointers.copy(alloc)?)?;
    }
    Ok(pointing)
}

/// Removes what was given where no block is present.
fn remove_given(given: &mut BTreeMap<Address, u64>, blocks: &BTreeMap<Address, StoredBlock>)
    ensures { given.new.entries
        ≡ filter (λ e. is_among (keys_of blocks.now.entries) e.0) given.old.entries }
{
    given.retain(|address, _| is_present(blocks, address));
}

/// Whether a block is present at an address.
fn is_present(blocks: &BTreeMap<Address, StoredBlock>, address: &Address) -> bool
    ensures { result ≡ is_among (keys_of blocks.now.entries) address.now }
{
    blocks.contains_key(address)
}
