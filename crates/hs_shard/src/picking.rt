//! The blocks of a list that a deletion run picks.
ghost use Rattle.std.specs.Prelude.{◌≡◌, ◌+◌, false, filter, nat_le, IfOk};
ghost use Rattle.std.specs.List.Sorted.{IsStrictlySortedBy};
ghost use Rattle.std.specs.Option.{option_map_or};
ghost use Rattle.hs_model.specs.Store.{address_cmp};
ghost use Rattle.hs_shard.specs.Facts.{facts_in};
ghost use Rattle.hs_shard.specs.Rounds.{is_gone, is_new, is_new_zero};

use crate::Facts;
use hs_limits::Address;
use std::alloc::{AllocError, Global};
use std::collections::{BTreeMap, BTreeSet};

/// Those that become counted in an epoch.
pub(crate) fn pick_new(
    alloc: Global,
    list: &BTreeSet<Address>,
    known: &BTreeMap<Address, Facts>,
    epoch: u64,
) -> Result<Vec<Address>, AllocError>
    ensures items { IfOk result (λ picked. picked.items ≡ filter
        (λ a. option_map_or (is_new epoch) (facts_in a known.now.entries) false) list.now.keys) }
    ensures ordered { IsStrictlySortedBy address_cmp list.now.keys }
{
    list.iter()
        .filter(|address| is_new(known, address, epoch))
        .copied()
        .collect(alloc)
}

/// Those that become zero blocks in an epoch.
pub(crate) fn pick_new_zeros(
    alloc: Global,
    list: &BTreeSet<Address>,
    known: &BTreeMap<Address, Facts>,
    epoch: u64,
) -> Result<Vec<Address>, AllocError>
    ensures items { IfOk result (λ picked. picked.items ≡ filter
        (λ a. option_map_or (is_new_zero epoch) (facts_in a known.now.entries) false)
        list.now.keys) }
    ensures ordered { IsStrictlySortedBy address_cmp list.now.keys }
{
    list.iter()
        .filter(|address| is_new_zero(known, address, epoch))
        .copied()
        .collect(alloc)
}

/// Those that the sweep of an epoch removes.
pub(crate) fn pick_gone(
    alloc: Global,
    list: &BTreeSet<Address>,
    known: &BTreeMap<Address, Facts>,
    epoch: u64,
) -> Result<Vec<Address>, AllocError>
    ensures items { IfOk result (λ picked. picked.items ≡ filter
        (λ a. option_map_or (is_gone epoch) (facts_in a known.now.entries) false) list.now.keys) }
    ensures ordered { IsStrictlySortedBy address_cmp list.now.keys }
{
    list.iter()
        .filter(|address| is_gone(known, address, epoch))
        .copied()
        .collect(alloc)
}

/// All of them.
pub(crate) fn pick_all(alloc: Global, list: &BTreeSet<Address>) -> Result<Vec<Address>, AllocError>
    ensures items { IfOk result (λ picked. picked.items ≡ list.now.keys) }
    ensures ordered { IsStrictlySortedBy address_cmp list.now.keys }
{
    list.iter().copied().collect(alloc)
}

/// Whether a block becomes counted in an epoch.
fn is_new(known: &BTreeMap<Address, Facts>, address: &Address, epoch: u64) -> bool
    ensures { result ≡ option_map_or (is_new epoch)
        (facts_in address.now known.now.entries) false }
{
    match known.get(address) {
        Some(facts) => !facts.counted && facts.born < epoch,
        None => false,
    }
}

/// Whether a block becomes a zero block in an epoch.
fn is_new_zero(known: &BTreeMap<Address, Facts>, address: &Address, epoch: u64) -> bool
    ensures { result ≡ option_map_or (is_new_zero epoch)
        (facts_in address.now known.now.entries) false }
{
    match known.get(address) {
        Some(facts) => {
            facts.counted && !facts.zero && facts.count == 0 && is_past(facts.mark, epoch)
        }
        None => false,
    }
}

/// Whether the sweep of an epoch removes a block.
fn is_gone(known: &BTreeMap<Address, Facts>, address: &Address, epoch: u64) -> bool
    ensures { result ≡ option_map_or (is_gone epoch)
        (facts_in address.now known.now.entries) false }
{
    match known.get(address) {
        Some(facts) => facts.zero && facts.mark < epoch,
        None => false,
    }
}

/// Whether an epoch is the second after another or later.
fn is_past(epoch: u64, now: u64) -> bool
    ensures { result ≡ nat_le (epoch + 2) now }
{
    epoch < now.saturating_sub(1)
}
