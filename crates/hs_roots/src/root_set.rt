//! The roots by key, and how many of them are retained.
ghost use Rattle.std.specs.Prelude.{◌≡◌, [], IfOk, IfSome, IfNone, OnOk, OnErr, IsOk, IsOkUnless};
ghost use Rattle.std.specs.Option.{option_map};
ghost use Rattle.std.specs.Result.{result_err};
ghost use Rattle.hs_roots.specs.declared.fault.RootFault.TheVariants as fault;
ghost use Rattle.hs_roots.specs.ByKey.{count_upto};
ghost use Rattle.hs_roots.specs.Places.{AreByKey, place_of};
ghost use Rattle.hs_roots.specs.Refusals.{put_refusal, drop_refusal};
ghost use Rattle.hs_roots.specs.Roots.{retained_of, retained_count, put_root, drop_root, is_new, count_new, is_released, release, released_count, kept_by};

use crate::root::{
    count_all, count_released, forget_released, is_upto, new_addresses, released_addresses, retains,
};
use crate::{RootFault, RootRecord};
use hs_limits::{Address, Key};
use std::alloc::Global;
use std::marker::Model;

/// The roots of one shard: those that are retained, and those that were dropped and that no deletion
/// run has forgotten yet.
#[derive(Drop)]
pub struct RootSet {
    /// By key, and of one key in the order in which they were put: a retained one is the last.
    records: Vec<RootRecord>,
    /// How many are retained.
    retained: u32,
    limit: u32,
    alloc: Global,
}

impl Model for RootSet {
    ghost use Rattle.hs_roots.specs.Places.{AreKept};
    ghost use Rattle.hs_roots.specs.Roots.{Retention};

    ghost Value = { Retention };

    ghost view = { λ a. record { roots = a.records.items; limit = a.limit } };

    ghost invariant = { λ a. AreKept a.records.items a.retained };
}

impl RootSet {
    /// No root, and how many may be retained. It takes no memory.
    pub fn new(alloc: Global, limit: u32) -> RootSet
        ensures roots { result.roots ≡ [] }
        ensures limit { result.limit ≡ limit }
    {
        RootSet {
            records: Vec::new(alloc),
            retained: 0,
            limit,
            alloc,
        }
    }

    /// Retains an address under a key. A key that is retained with this address stays as it is.
    /// Refused as KeyTaken where the key is retained with another one, and as RootsFull where it is
    /// not retained and as many keys as the limit are. A fault changes nothing.
    pub fn put(&mut self, key: &Key, address: Address, epoch: u64) -> Result<(), RootFault>
        ensures ok { OnOk result (self.new.roots ≡ put_root key.now address epoch self.old.roots) }
        ensures again { IfSome (retained_of key.now self.old.roots)
            (λ root. root.address ≡ address → IsOk result) }

        // Which refusal comes, and that none comes where no cause holds.
        ensures refused { IfSome (put_refusal self.old address (retained_of key.now self.old.roots))
            (λ cause. result ≡ Err cause) }
        ensures only { IfNone (put_refusal self.old address (retained_of key.now self.old.roots))
            (IsOkUnless result fault.NoMemory) }

        ensures same { OnErr result (self.new.roots ≡ self.old.roots) }
        ensures limit { self.new.limit ≡ self.old.limit }
    {
        if let Some(kept) = self.look(key) {
            if kept != address {
                return Err(RootFault::KeyTaken);
            }
            return Ok(());
        }
        if self.retained >= self.limit {
            return Err(RootFault::RootsFull { limit: self.limit });
        }
        let record = RootRecord {
            key: key.copy(self.alloc)?,
            address,
            created: epoch,
            counted: false,
            dropped: None,
        };
        let place = count_upto(self.records.as_slice(), key);
        self.records.insert(place, record)?;
        self.retained += 1;
        Ok(())
    }

    /// Ends the retention of a key in this epoch. Refused as NoKey where it is not retained, and then
    /// nothing changes. It takes no memory.
    pub fn drop_key(&mut self, key: &Key, epoch: u64) -> Result<(), RootFault>
        ensures ok { OnOk result (self.new.roots ≡ drop_root key.now epoch self.old.roots) }
        ensures refused { result_err result ≡ drop_refusal (retained_of key.now self.old.roots) }
        ensures same { OnErr result (self.new.roots ≡ self.old.roots) }
        ensures limit { self.new.limit ≡ self.old.limit }
    {
        let Some(place) = place_of(self.records.as_slice(), key) else {
            return Err(RootFault::NoKey);
        };
        self.records[place].dropped = Some(epoch);
        self.retained -= 1;
        Ok(())
    }

    /// The address that a key retains. None exactly where it is not retained. It takes no memory.
    pub fn look(&self, key: &Key) -> Option<Address>
        ensures { result ≡ option_map (λ root. root.address) (retained_of key.now self.now.roots) }
    {
        let place = place_of(self.records.as_slice(), key)?;
        Some(self.records[place].address)
    }

    /// The number of retained roots. It takes no memory.
    pub fn retained(&self) -> u32
        ensures { result ≡ retained_count self.now.roots }
    {
        self.retained
    }

    /// The roots by key, and of one key in the order in which they were put. It takes no memory.
    pub fn records(&self) -> &[RootRecord]
        ensures roots { result.now ≡ self.now.roots }
        ensures by_key { AreByKey self.now.roots }
    {
        self.records.as_slice()
    }

    /// Counts the roots that were put before a run's epoch and that no run has counted, and answers
    /// their addresses in order. The only fault is NoMemory, and it changes nothing.
    pub fn count_new(&mut self, epoch: u64) -> Result<Vec<Address>, RootFault>
        ensures ok { OnOk result (self.new.roots ≡ count_new epoch self.old.roots) }
        ensures addresses { IfOk result
            (λ addresses. addresses.items ≡ kept_by (is_new epoch) self.old.roots) }
        ensures only { IsOkUnless result fault.NoMemory }
        ensures same { OnErr result (self.new.roots ≡ self.old.roots) }
        ensures limit { self.new.limit ≡ self.old.limit }
    {
        let addresses = new_addresses(self.alloc, epoch, self.records.as_slice())?;
        count_all(epoch, &mut self.records);
        Ok(addresses)
    }

    /// How many roots a run of this epoch forgets. It takes no memory.
    pub fn released(&self, epoch: u64) -> usize
        ensures { result ≡ released_count epoch self.now.roots }
    {
        count_released(epoch, self.records.as_slice())
    }

    /// Forgets the counted roots that were dropped in the second epoch before a run's, or earlier,
    /// and answers their addresses in order. The only fault is NoMemory, and it changes nothing.
    pub fn release(&mut self, epoch: u64) -> Result<Vec<Address>, RootFault>
        ensures ok { OnOk result (self.new.roots ≡ release epoch self.old.roots) }
        ensures addresses { IfOk result
            (λ addresses. addresses.items ≡ kept_by (is_released epoch) self.old.roots) }
        ensures only { IsOkUnless result fault.NoMemory }
        ensures same { OnErr result (self.new.roots ≡ self.old.roots) }
        ensures limit { self.new.limit ≡ self.old.limit }
    {
        let addresses = released_addresses(self.alloc, epoch, self.records.as_slice())?;
        forget_released(epoch, &mut self.records);
        Ok(addresses)
    }
}

/// The place of the root that is retained under a key, by a binary search.
fn place_of(records: &[RootRecord], key: &Key) -> Option<usize>
    requires { AreByKey records.now }
    ensures { result ≡ place_of key.now records.now }
{
    let place = count_upto(records, key).checked_sub(1)?;
    if retains(&records[place], key) {
        Some(place)
    } else {
        None
    }
}

/// How many records have a key that is at most this one, by a binary search.
fn count_upto(records: &[RootRecord], key: &Key) -> usize
    requires { AreByKey records.now }
    ensures { result ≡ count_upto (λ root. root.key) key.now records.now }
{
    records.partition_point(|root| is_upto(root, key))
}
