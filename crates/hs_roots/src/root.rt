//! One root, from when it is put until a deletion run forgets it.
ghost use Rattle.std.specs.Prelude.{◌≡◌, ◌+◌, ◌||◌, nat_le, nat_lt, IfOk, OnErr};
ghost use Rattle.hs_roots.specs.declared.fault.RootFault.TheVariants.{NoMemory};
ghost use Rattle.hs_roots.specs.ByKey.{is_upto};
ghost use Rattle.hs_roots.specs.Roots.{is_new, count_new, is_released, release, released_count, kept_by, retains};

use crate::RootFault;
use hs_limits::{Address, Key};
use std::alloc::Global;

/// A root: its key, the address that it keeps, the epoch in which it was put, whether a deletion run
/// has counted it, and the epoch in which it was dropped. It is retained while that is None.
#[derive(Debug, Drop)]
pub struct RootRecord {
    pub key: Key,
    pub address: Address,
    pub created: u64,
    pub counted: bool,
    pub dropped: Option<u64>,
}

/// Whether the root is retained under a key.
pub(crate) fn retains(root: &RootRecord, key: &Key) -> bool
    ensures { result ≡ retains key.now root.now }
{
    root.dropped.is_none() && root.key == *key
}

/// Whether the root's key is at most this one.
pub(crate) fn is_upto(root: &RootRecord, key: &Key) -> bool
    ensures { result ≡ is_upto root.now.key key.now }
{
    root.key <= *key
}

/// Whether a run of this epoch counts the root.
pub(crate) fn is_new(epoch: u64, root: &RootRecord) -> bool
    ensures { result ≡ is_new epoch root.now }
{
    !root.counted && root.created < epoch
}

/// Whether a run of this epoch forgets the root.
pub(crate) fn is_released(epoch: u64, root: &RootRecord) -> bool
    ensures { result ≡ is_released epoch root.now }
{
    match root.dropped {
        Some(dropped) => root.counted && is_past(dropped, epoch),
        None => false,
    }
}

/// Whether an epoch is the second after another or later.
fn is_past(epoch: u64, now: u64) -> bool
    ensures { result ≡ nat_le (epoch + 2) now }
{
    epoch < now.saturating_sub(1)
}

/// The addresses of the roots that a run of this epoch counts.
pub(crate) fn new_addresses(
    alloc: Global,
    epoch: u64,
    roots: &[RootRecord],
) -> Result<Vec<Address>, RootFault>
    ensures addresses { IfOk result (λ addresses. addresses.items ≡ kept_by (is_new epoch) roots.now) }
    ensures only { OnErr result (result ≡ Err NoMemory) }
{
    let addresses = roots
        .iter()
        .filter(|root| is_new(epoch, root))
        .map(|root| root.address)
        .collect(alloc)?;
    Ok(addresses)
}

/// The addresses of the roots that a run of this epoch forgets.
pub(crate) fn released_addresses(
    alloc: Global,
    epoch: u64,
    roots: &[RootRecord],
) -> Result<Vec<Address>, RootFault>
    ensures addresses { IfOk result
        (λ addresses. addresses.items ≡ kept_by (is_released epoch) roots.now) }
    ensures only { OnErr result (result ≡ Err NoMemory) }
{
    let addresses = roots
        .iter()
        .filter(|root| is_released(epoch, root))
        .map(|root| root.address)
        .collect(alloc)?;
    Ok(addresses)
}

/// Whether the root is counted after a run of this epoch has counted.
fn is_counted(epoch: u64, root: &RootRecord) -> bool
    ensures { result ≡ (root.now.counted || nat_lt root.now.created epoch) }
{
    root.counted || root.created < epoch
}

/// Counts the roots that were put before this epoch.
pub(crate) fn count_all(epoch: u64, roots: &mut Vec<RootRecord>)
    ensures { roots.new.items ≡ count_new epoch roots.old.items }
{
    for root in roots.iter_mut() {
        root.counted = is_counted(epoch, root);
    }
}

/// How many roots a run of this epoch forgets.
pub(crate) fn count_released(epoch: u64, roots: &[RootRecord]) -> usize
    ensures { result ≡ released_count epoch roots.now }
{
    roots.iter().filter(|root| is_released(epoch, root)).count()
}

/// Takes away the roots that a run of this epoch forgets.
pub(crate) fn forget_released(epoch: u64, roots: &mut Vec<RootRecord>)
    ensures { roots.new.items ≡ release epoch roots.old.items }
{
    roots.retain(|root| !is_released(epoch, root));
}
