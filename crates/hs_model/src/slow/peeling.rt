//! What goes when blocks that nothing holds are taken away again and again.
ghost use Rattle.std.specs.Prelude.{◌≡◌, ◌==◌, ◌||◌, ◌↔◌, List, not, map, filter, length, IfOk, OnOk, IsTrue};
ghost use Rattle.std.specs.List.{flat_map};
ghost use Rattle.std.specs.List.Sorted.{IsStrictlySortedBy};
ghost use Rattle.std.specs.BTreeMap.{is_at};
ghost use Rattle.std.specs.Map.{lookup};
ghost use Rattle.std.specs.Option.{is_some};
ghost use Rattle.hs_limits.specs.declared.address.Address.{Address};
ghost use Rattle.hs_model.specs.Listed.{IsListOf, IsPresent};
ghost use Rattle.hs_model.specs.Peel.{IsStaying, IsAcyclic};
ghost use Rattle.hs_model.specs.Plain.{IsPlain, plain_of};
ghost use Rattle.hs_model.specs.Pointing.{is_kept};
ghost use Rattle.hs_model.specs.Reach.{IsReached, is_among};
ghost use Rattle.hs_model.specs.Store.{address_cmp};

use super::pointing::{Pointing, has, pointing};
use crate::{ModelFault, PlainBlock, PlainStore};
use hs_limits::{Address, ListOf};
use std::alloc::Global;
use std::collections::BTreeSet;

/// The addresses, ascending, that go when blocks which are no anchor and which no remaining block
/// points to are taken away again and again. Where no pointers lead back to a block, those are the
/// present addresses that the anchors do not reach.
pub fn peel(
    alloc: Global,
    store: &PlainStore,
    anchors: &[Address],
) -> Result<ListOf<Address>, ModelFault>
    requires { IsPlain store.now }
    ensures gone { let s = plain_of store.now in
        IfOk result (λ list. IsListOf list (λ a. IsPresent s a × ¬ IsStaying s anchors.now a)) }
    ensures stay { let s = plain_of store.now in
        IfOk result (λ list. (a : Address)
        → IsPresent s a → ¬ IsTrue (is_among list a) → IsStaying s anchors.now a) }
    ensures acyclic { let s = plain_of store.now in
        IfOk result (λ list. IsAcyclic s
        → IsListOf list (λ a. IsPresent s a × ¬ IsReached s anchors.now a)) }
    ensures ascending { IfOk result (λ list. IsStrictlySortedBy address_cmp list) }
{
    let held = set_of(alloc, anchors)?;
    let mut left = pointing(alloc, store.blocks.as_slice())?;
    'rounds: while takes_away(alloc, &mut left, &held)? {}
    let list = absent(alloc, store.blocks.as_slice(), &left)?;
    Ok(ListOf::from_vec(list))
}

/// Takes away what is no anchor and what no remaining block points to. Whether anything went.
fn takes_away(
    alloc: Global,
    left: &mut Pointing,
    held: &BTreeSet<Address>,
) -> Result<bool, ModelFault>
    ensures left { OnOk result (left.new.entries
        ≡ filter (λ e. is_kept held.now.keys left.old.entries e.0) left.old.entries) }
    ensures more { IfOk result
        (λ more. more ≡ not (length left.new.entries == length left.old.entries)) }
{
    let before = left.len();
    let pointed = pointed(alloc, left)?;
    left.retain(|address, _| has(held, address) || has(&pointed, address));
    Ok(left.len() != before)
}

/// What some blocks point to.
fn pointed(alloc: Global, left: &Pointing) -> Result<BTreeSet<Address>, ModelFault>
    ensures { IfOk result (λ pointed. (a : Address)
        → is_among pointed.keys a ≡ is_among (flat_map (λ e. e.1) left.now.entries) a) }
{
    let mut pointed = BTreeSet::new(alloc);
    for (_, pointers) in left {
        add(&mut pointed, pointers.as_slice())?;
    }
    Ok(pointed)
}

/// The set of some addresses.
fn set_of(alloc: Global, addresses: &[Address]) -> Result<BTreeSet<Address>, ModelFault>
    ensures { IfOk result (λ set. (a : Address)
        → is_among set.keys a ≡ is_among addresses.now a) }
{
    let mut set = BTreeSet::new(alloc);
    add(&mut set, addresses)?;
    Ok(set)
}

/// Adds some addresses to a set.
fn add(set: &mut BTreeSet<Address>, addresses: &[Address]) -> Result<(), ModelFault>
    ensures { OnOk result ((a : Address) → is_among set.new.keys a
        ≡ (is_among set.old.keys a || is_among addresses.now a)) }
{
    for address in addresses {
        set.insert(*address)?;
    }
    Ok(())
}

/// The addresses of blocks that are not left.
fn absent(alloc: Global, blocks: &[PlainBlock], left: &Pointing) -> Result<Vec<Address>, ModelFault>
    ensures { IfOk result (λ list. list.items ≡ map (λ block. block.address) (filter
        (λ block. not (is_some (lookup (is_at (address_cmp block.address)) left.now.entries)))
        blocks.now)) }
{
    Ok(
        blocks
            .iter()
            .filter(|block| is_gone(left, &block.address))
            .map(|block| block.address)
            .collect(alloc)?,
    )
}

/// Whether no block is left at an address.
fn is_gone(left: &Pointing, address: &Address) -> bool
    ensures { result ≡ not (is_some (lookup (is_at (address_cmp address.now)) left.now.entries)) }
{
    !left.contains_key(address)
}
