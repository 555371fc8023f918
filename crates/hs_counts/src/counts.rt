//! Counts by address.
ghost use Rattle.std.specs.Prelude.{◌≡◌, ◌+◌, ◌<◌, ◌≤◌, ◌^◌, [], Some, IsSome, IsOk, IsOkUnless, IfOk, OnOk, OnErr};
ghost use Rattle.std.specs.Option.{ForSome};
ghost use Rattle.hs_counts.specs.declared.fault.CountFault.TheVariants.{NoMemory};
ghost use Rattle.hs_counts.specs.Counts.{count_of, raise, lower, place, remove_count, zero_addresses};

use crate::CountFault;
use hs_limits::{Address, Delta};
use std::alloc::Global;
use std::collections::BTreeMap;
use std::marker::Model;

/// For each counted address how often it is pointed to.
#[derive(Drop)]
pub struct Counts {
    counts: BTreeMap<Address, u32>,
    alloc: Global,
}

impl Model for Counts {
    ghost use Rattle.hs_counts.specs.Counts.{CountList};

    ghost Value = { CountList };

    ghost view = { λ a. a.counts.entries };
}

impl Counts {
    /// No count. It takes no memory.
    pub fn new(alloc: Global) -> Counts
        ensures { result ≡ [] }
    {
        Counts {
            counts: BTreeMap::new(alloc),
            alloc,
        }
    }

    /// Raises the count of an address. It takes no memory.
    pub fn add(&mut self, delta: Delta)
        requires there { IsSome (count_of delta.address self.old) }
        requires fits { ForSome (count_of delta.address self.old)
            (λ count. count + delta.amount < 2 ^ 32) }
        ensures { self.new ≡ raise delta self.old }
    {
        if let Some(count) = self.counts.get_mut(&delta.address) {
            *count += delta.amount;
        }
    }

    /// Lowers the count of an address. It takes no memory.
    pub fn lower(&mut self, delta: Delta)
        requires there { IsSome (count_of delta.address self.old) }
        requires enough { ForSome (count_of delta.address self.old)
            (λ count. delta.amount ≤ count) }
        ensures { self.new ≡ lower delta self.old }
    {
        if let Some(count) = self.counts.get_mut(&delta.address) {
            *count -= delta.amount;
        }
    }

    /// Gives an address that is not there the count 0; one that is there keeps its count, and that
    /// takes no memory. The only fault is NoMemory, and it changes nothing.
    pub fn place(&mut self, address: Address) -> Result<(), CountFault>
        ensures ok { OnOk result (self.new ≡ place address self.old) }
        ensures again { IsSome (count_of address self.old) → IsOk result }
        ensures only { IsOkUnless result NoMemory }
        ensures same { OnErr result (self.new ≡ self.old) }
    {
        if self.counts.contains_key(&address) {
            return Ok(());
        }
        self.counts.insert(address, 0)?;
        Ok(())
    }

    /// Takes an address away whose count is 0. It takes no memory.
    pub fn remove(&mut self, address: &Address)
        requires { count_of address.now self.old ≡ Some 0 }
        ensures { self.new ≡ remove_count address.now self.old }
    {
        self.counts.remove(address);
    }

    /// The addresses whose count is 0, ascending. It goes over all counts. The only fault is NoMemory.
    pub fn zero_new(&self) -> Result<Vec<Address>, CountFault>
        ensures addresses { IfOk result
            (λ addresses. addresses.items ≡ zero_addresses self.now) }
        ensures only { IsOkUnless result NoMemory }
    {
        let addresses = self
            .counts
            .iter()
            .filter(|(_, count)| **count == 0)
            .map(|(address, _)| *address)
            .collect(self.alloc)?;
        Ok(addresses)
    }

    /// The count of an address. None exactly where it is not there. It takes no memory.
    pub fn get(&self, address: &Address) -> Option<u32>
        ensures { result ≡ count_of address.now self.now }
    {
        self.counts.get(address).copied()
    }
}
