//! The present blocks of a shard: what is known of each, and which a deletion run looks at.
ghost use Rattle.std.specs.Prelude.{[], ◌≡◌, ◌||◌, ◌+◌, ◌<◌, ◌≤◌, None, Some, cond, ℕ, false, true, nat_le, not, length, count_by, filter, IfOk, OnErr, OnOk};
ghost use Rattle.std.specs.BTreeMap.{insert_entry, is_at};
ghost use Rattle.std.specs.List.Sorted.{IsStrictlySortedBy};
ghost use Rattle.std.specs.Map.{keys_of};
ghost use Rattle.std.specs.Option.{option_copied, option_map, option_map_or};
ghost use Rattle.std.specs.Ordering.{nat_cmp};
ghost use Rattle.hs_limits.specs.declared.address.Address.{Address};
ghost use Rattle.hs_limits.specs.Limits.{greatest_limits};
ghost use Rattle.hs_model.specs.Store.{address_cmp};
ghost use Rattle.hs_shard.specs.declared.facts.Facts.{Facts};
ghost use Rattle.hs_shard.specs.Clients.{change_at, give, new_facts};
ghost use Rattle.hs_shard.specs.Facts.{facts_in, pointers_at, told_at};
ghost use Rattle.hs_shard.specs.Listed.{address_of, pointers_each, remove_at, remove_each, stand, stand_each};
ghost use Rattle.hs_shard.specs.Tally.{count_all};
ghost use Rattle.hs_shard.specs.Rounds.{count_block, each_block, find_zero, gone_count, is_gone, is_new, is_new_zero, move_count, moved, pointers_of, settle, spare, sweep_blocks};

use crate::listed::{Kind, Listed, kind_as};
use crate::picking::{pick_all, pick_gone, pick_new, pick_new_zeros};
use crate::tally::Tally;
use crate::writes::{give, insert_both, moved, write};
use crate::{BlockFacts, Facts};
use hs_limits::{Address, Delta, ListOf};
use std::alloc::{AllocError, Global};
use std::collections::BTreeMap;
use std::marker::Model;

mod plain;

/// The present blocks. Beside the map of what is known of each it keeps the address by the number of
/// the entry that stored the block, and the addresses of those that a deletion run looks at.
#[derive(Drop)]
pub(crate) struct Blocks {
    known: BTreeMap<Address, Facts>,
    numbers: BTreeMap<u64, Address>,
    listed: Listed,
    alloc: Global,
}

impl Model for Blocks {
    ghost use Rattle.hs_shard.specs.Facts.{BlockList};
    ghost use Rattle.hs_shard.specs.Listed.{AreKept};

    ghost Value = { BlockList };

    ghost view = { λ a. a.known.entries };

    ghost invariant = { λ a. AreKept a.known.entries a.numbers.entries a.listed };
}

impl Blocks {
    /// No block. It takes no memory.
    pub(crate) fn new(alloc: Global) -> Blocks
        ensures { result ≡ [] }
    {
        Blocks {
            known: BTreeMap::new(alloc),
            numbers: BTreeMap::new(alloc),
            listed: Listed::new(alloc),
            alloc,
        }
    }

    /// The number of blocks. It takes no memory.
    pub(crate) fn len(&self) -> u32
        ensures { result ≡ length self.now }
    {
        self.known.len() as u32
    }

    /// What is known of the block of an address. It takes no memory.
    pub(crate) fn get(&self, address: &Address) -> Option<&Facts>
        ensures { option_copied result ≡ facts_in address.now self.now }
    {
        self.known.get(address)
    }

    /// What is known of the block at a place, ascending by address. It takes no memory, and goes over
    /// the blocks before that place.
    pub(crate) fn at(&self, place: u32) -> Option<BlockFacts>
        ensures { result ≡ told_at place self.now }
    {
        let (address, facts) = self.known.iter().nth(place as usize)?;
        Some(BlockFacts {
            address: *address,
            number: facts.number,
            born: facts.born,
            mark: facts.mark,
            counted: facts.counted,
            zero: facts.zero,
            count: facts.count,
        })
    }

    /// What the block of an entry's number points to. It takes no memory.
    pub(crate) fn pointers(&self, number: u64) -> Option<&[Address]>
        ensures { option_map (λ pointers. pointers.now) result ≡ pointers_at number self.now }
    {
        match self.numbers.get(&number) {
            Some(address) => self.pointers_of(address),
            None => None,
        }
    }

    /// What the block of an address points to. It takes no memory.
    fn pointers_of(&self, address: &Address) -> Option<&[Address]>
        ensures { option_map (λ pointers. pointers.now) result
            ≡ option_map (λ f. f.pointers) (facts_in address.now self.now) }
    {
        match self.known.get(address) {
            Some(facts) => Some(facts.pointers.as_slice()),
            None => None,
        }
    }

    /// Gives a block in an epoch. It takes no memory.
    pub(crate) fn give(&mut self, address: &Address, epoch: u64)
        ensures { self.new ≡ change_at address.now (give epoch) self.old }
    {
        give(&mut self.known, address, epoch);
    }

    /// Stores a block that does not count yet. Without memory nothing changes.
    pub(crate) fn store(
        &mut self,
        address: Address,
        number: u64,
        epoch: u64,
        pointers: ListOf<Address>,
    ) -> Result<(), AllocError>
        requires absent { facts_in address self.old ≡ None }
        requires number { pointers_at number self.old ≡ None }
        requires room { length self.old < greatest_limits.blocks }
        ensures ok { OnOk result (self.new
            ≡ insert_entry address_cmp self.old address (new_facts number epoch pointers)) }
        ensures same { OnErr result (self.new ≡ self.old) }
    {
        let facts = Facts {
            number,
            born: epoch,
            mark: epoch,
            counted: false,
            zero: false,
            count: 0,
            pointers,
        };
        self.listed.relist(address, Kind::Other, Kind::Uncounted)?;
        match insert_both(&mut self.known, &mut self.numbers, address, facts) {
            Ok(()) => Ok(()),
            Err(error) => {
                self.listed.unlist(&address, Kind::Uncounted);
                Err(error)
            }
        }
    }

    /// Moves the counts of the deltas' blocks at the end of a round. Without memory some may have
    /// moved.
    pub(crate) fn settle(&mut self, round: u32, deltas: &[Delta]) -> Result<(), AllocError>
        ensures { OnOk result (self.new ≡ settle round deltas.now self.old) }
    {
        for delta in deltas {
            self.move_count(round, *delta)?;
        }
        Ok(())
    }

    /// Names what some blocks point to.
    pub(crate) fn tell(&self, addresses: &[Address], tally: &mut Tally) -> Result<(), AllocError>
        ensures { OnOk result
            (tally.new ≡ count_all (pointers_each addresses.now self.now) tally.old) }
    {
        for address in addresses {
            self.tell_one(address, tally)?;
        }
        Ok(())
    }

    /// Names what a block points to.
    fn tell_one(&self, address: &Address, tally: &mut Tally) -> Result<(), AllocError>
        ensures { OnOk result (tally.new ≡ count_all
            (option_map_or (λ f. f.pointers) (facts_in address.now self.now) []) tally.old) }
    {
        match self.known.get(address) {
            Some(facts) => tally.add_all(facts.pointers.as_slice()),
            None => Ok(()),
        }
    }

    /// The blocks that become counted in an epoch, ascending.
    pub(crate) fn new_in(&self, epoch: u64) -> Result<Vec<Address>, AllocError>
        ensures told { IfOk result (λ addresses.
            pointers_each addresses.items self.now ≡ pointers_of (is_new epoch) self.now) }
        ensures counted { IfOk result (λ addresses.
            stand_each true false addresses.items self.now
            ≡ each_block (count_block epoch) self.now) }
    {
        pick_new(self.alloc, &self.listed.uncounted, &self.known, epoch)
    }

    /// The blocks that become zero blocks in an epoch, ascending.
    pub(crate) fn new_zeros(&self, epoch: u64) -> Result<Vec<Address>, AllocError>
        ensures told { IfOk result (λ addresses.
            pointers_each addresses.items self.now ≡ pointers_of (is_new_zero epoch) self.now) }
        ensures found { IfOk result (λ addresses.
            stand_each true true addresses.items self.now ≡ each_block (find_zero epoch) self.now) }
        ensures count { IfOk result (λ addresses. length addresses.items
            ≡ count_by (λ e. is_new_zero epoch e.1) self.now) }
    {
        pick_new_zeros(self.alloc, &self.listed.idle, &self.known, epoch)
    }

    /// The zero blocks that no write gave in an epoch go, and the others count no more; how many go.
    /// Without memory some may be gone, or count no more.
    pub(crate) fn sweep(&mut self, epoch: u64) -> Result<u32, AllocError>
        ensures blocks { OnOk result (self.new ≡ sweep_blocks epoch self.old) }
        ensures count { IfOk result (λ count. count ≡ gone_count epoch self.old) }
    {
        let gone = self.gone(epoch)?;
        let Ok(count) = u32::try_from(gone.len()) else {
            return Err(AllocError);
        };
        self.remove_each(gone.as_slice());
        let spared = self.zeros()?;
        self.stand_each(spared.as_slice(), false, false)?;
        Ok(count)
    }

    /// The zero blocks that the sweep of an epoch removes, ascending.
    fn gone(&self, epoch: u64) -> Result<Vec<Address>, AllocError>
        ensures removed { IfOk result (λ addresses. remove_each addresses.items self.now
            ≡ filter (λ e. not (is_gone epoch e.1)) self.now) }
        ensures count { IfOk result (λ addresses.
            length addresses.items ≡ gone_count epoch self.now) }
    {
        pick_gone(self.alloc, &self.listed.zeros, &self.known, epoch)
    }

    /// The zero blocks, ascending.
    fn zeros(&self) -> Result<Vec<Address>, AllocError>
        ensures spared { IfOk result (λ addresses.
            stand_each false false addresses.items self.now ≡ each_block spare self.now) }
    {
        pick_all(self.alloc, &self.listed.zeros)
    }

    /// Says of some blocks whether they count and whether they are zero blocks. Without memory it may
    /// be said of some of them.
    pub(crate) fn stand_each(
        &mut self,
        addresses: &[Address],
        counted: bool,
        zero: bool,
    ) -> Result<(), AllocError>
        requires { (counted || not zero) ≡ true }
        ensures ok { OnOk result (self.new ≡ stand_each counted zero addresses.now self.old) }
    {
        for address in addresses {
            self.stand(address, counted, zero)?;
        }
        Ok(())
    }

    /// Takes some blocks away. It takes no memory.
    fn remove_each(&mut self, addresses: &[Address])
        ensures ok { self.new ≡ remove_each addresses.now self.old }
    {
        for address in addresses {
            self.remove(address);
        }
    }

    /// Says of a block whether it counts and whether it is a zero block.
    fn stand(&mut self, address: &Address, counted: bool, zero: bool) -> Result<(), AllocError>
        requires { (counted || not zero) ≡ true }
        ensures { OnOk result (self.new ≡ change_at address.now (stand counted zero) self.old) }
    {
        let Some(facts) = self.known.get(address) else {
            return Ok(());
        };
        let count = facts.count;
        self.change(address, counted, zero, count)
    }

    /// Moves the count of a delta's block at the end of a round.
    fn move_count(&mut self, round: u32, delta: Delta) -> Result<(), AllocError>
        ensures { OnOk result (self.new
            ≡ change_at delta.address (move_count round delta.amount) self.old) }
    {
        let Some(facts) = self.known.get(&delta.address) else {
            return Ok(());
        };
        let (counted, zero) = (facts.counted, facts.zero);
        let count = moved(round, facts.count, delta.amount);
        self.change(&delta.address, counted, zero, count)
    }

    /// Changes what is known of a block, and lists it as it is then. Without memory nothing changes.
    fn change(
        &mut self,
        address: &Address,
        counted: bool,
        zero: bool,
        count: u32,
    ) -> Result<(), AllocError>
        requires { (counted || not zero) ≡ true }
        ensures ok { OnOk result (self.new ≡ change_at address.now
            (λ f. record f { counted = counted; zero = zero; count = count }) self.old) }
        ensures same { OnErr result (self.new ≡ self.old) }
    {
        let Some(facts) = self.known.get(address) else {
            return Ok(());
        };
        let from = kind_as(facts.counted, facts.zero, facts.count);
        let to = kind_as(counted, zero, count);
        self.listed.relist(*address, from, to)?;
        write(&mut self.known, address, counted, zero, count);
        Ok(())
    }

    /// Takes a block away. It takes no memory.
    fn remove(&mut self, address: &Address)
        ensures { self.new ≡ remove_at address.now self.old }
    {
        let Some(facts) = self.known.remove(address) else {
            return;
        };
        let kind = kind_as(facts.counted, facts.zero, facts.count);
        self.numbers.remove(&facts.number);
        self.listed.unlist(address, kind);
    }
}
