//! How often addresses are named.
ghost use Rattle.std.specs.Prelude.{[], ◌≡◌, IfOk, OnOk};
ghost use Rattle.hs_rounds.specs.Changes.{AreChanges};
ghost use Rattle.hs_shard.specs.Tally.{count_all, deltas_of, one_more};

use hs_limits::{Address, Delta};
use std::alloc::{AllocError, Global};
use std::collections::BTreeMap;
use std::marker::Model;

/// For each address that was named how often.
#[derive(Drop)]
pub(crate) struct Tally {
    counts: BTreeMap<Address, u32>,
    alloc: Global,
}

impl Model for Tally {
    ghost use Rattle.std.specs.Prelude.{◌≤◌, ℕ, List};
    ghost use Rattle.std.specs.List.{AllByRecursion};
    ghost use Rattle.std.specs.List.Sorted.{IsStrictlySortedBy};
    ghost use Rattle.std.specs.Map.{keys_of};
    ghost use Rattle.hs_limits.specs.declared.address.Address.{Address};
    ghost use Rattle.hs_model.specs.Store.{address_cmp};

    ghost Value = { List (Address × ℕ) };

    ghost view = { λ a. a.counts.entries };

    ghost invariant = { λ a. record {
      ordered : IsStrictlySortedBy address_cmp (keys_of a.counts.entries);
      some : AllByRecursion (λ e. 1 ≤ e.1) a.counts.entries;
    } };
}

impl Tally {
    /// Nothing was named. It takes no memory.
    pub(crate) fn new(alloc: Global) -> Tally
        ensures { result ≡ [] }
    {
        Tally {
            counts: BTreeMap::new(alloc),
            alloc,
        }
    }

    /// Names some addresses more.
    pub(crate) fn add_all(&mut self, addresses: &[Address]) -> Result<(), AllocError>
        ensures { OnOk result (self.new ≡ count_all addresses.now self.old) }
    {
        for address in addresses {
            self.add(*address)?;
        }
        Ok(())
    }

    /// What was named, as deltas.
    pub(crate) fn deltas(&self) -> Result<Vec<Delta>, AllocError>
        ensures value { IfOk result (λ deltas. deltas.items ≡ deltas_of self.now) }
        ensures changes { IfOk result (λ deltas. AreChanges deltas.items) }
    {
        deltas_of(self.alloc, &self.counts)
    }

    /// Names an address once more. A count beyond 2^32-1 counts as want of memory.
    fn add(&mut self, address: Address) -> Result<(), AllocError>
        ensures { OnOk result (self.new ≡ one_more address self.old) }
    {
        if let Some(count) = self.counts.get_mut(&address) {
            let Some(more) = count.checked_add(1) else {
                return Err(AllocError);
            };
            *count = more;
            return Ok(());
        }
        self.counts.insert(address, 1)?;
        Ok(())
    }
}

/// Some counts as deltas.
fn deltas_of(alloc: Global, counts: &BTreeMap<Address, u32>) -> Result<Vec<Delta>, AllocError>
    ensures { IfOk result (λ deltas. deltas.items ≡ deltas_of counts.now.entries) }
{
    counts
        .iter()
        .map(|(address, amount)| Delta {
            address: *address,
            amount: *amount,
        })
        .collect(alloc)
}
