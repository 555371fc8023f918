//! Whether each block of a store is reached from a retained root.
ghost use Rattle.std.specs.List.{list_all};
ghost use Rattle.std.specs.Prelude.{◌≡◌, IfOk, filter, is_none, map, true};
ghost use Rattle.hs_limits.specs.declared.address.Address.{Address};
ghost use Rattle.hs_core_words.specs.Plain.{plain_store};
ghost use Rattle.hs_load.specs.Reached.{EachIsReached};
ghost use Rattle.hs_model.specs.Plain.{IsPlain, plain_of};
ghost use Rattle.hs_model.specs.Reach.{is_among};

use hs_cluster::Cluster;
use hs_core::Core;
use hs_desk::CoreFault;
use hs_limits::Address;
use hs_model::{ModelFault, PlainBlock, PlainRoot, PlainStore, reached};
use std::alloc::Global;
use std::collections::BTreeSet;

/// The addresses of the roots that are not dropped.
fn kept_by_roots(alloc: Global, roots: &[PlainRoot]) -> Result<Vec<Address>, ModelFault>
    ensures { IfOk result (λ found. found.items
        ≡ map (λ root. root.address) (filter (λ root. is_none root.dropped) roots.now)) }
{
    Ok(
        roots
            .iter()
            .filter(|root| root.dropped.is_none())
            .map(|root| root.address)
            .collect(alloc)?,
    )
}

/// Some addresses as a set.
fn set_of(alloc: Global, addresses: &[Address]) -> Result<BTreeSet<Address>, ModelFault>
    ensures { IfOk result (λ set. (a : Address)
        → is_among set.keys a ≡ is_among addresses.now a) }
{
    let mut set = BTreeSet::new(alloc);
    for address in addresses {
        set.insert(*address)?;
    }
    Ok(set)
}

/// Whether a set has an address.
fn has(seen: &BTreeSet<Address>, address: &Address) -> bool
    ensures { result ≡ is_among seen.now.keys address.now }
{
    seen.contains(address)
}

/// Whether a set has the address of each block.
fn has_each(seen: &BTreeSet<Address>, blocks: &[PlainBlock]) -> bool
    ensures { result ≡ list_all (λ block. is_among seen.now.keys block.address) blocks.now }
{
    blocks.iter().all(|block| has(seen, &block.address))
}

/// Whether each block of a store is reached from its retained roots. Blocks are looked at once each.
fn are_reached(alloc: Global, store: &PlainStore) -> Result<bool, ModelFault>
    requires { IsPlain store.now }
    ensures found { IfOk result (λ are. are ≡ true → EachIsReached (plain_of store.now)) }
    ensures only { IfOk result (λ are. EachIsReached (plain_of store.now) → are ≡ true) }
{
    let kept = kept_by_roots(alloc, store.roots.as_slice())?;
    let reached = reached(alloc, store, kept.as_slice())?;
    let seen = set_of(alloc, reached.as_slice())?;
    Ok(has_each(&seen, store.blocks.as_slice()))
}

/// Whether each block that a core has is reached from its retained roots. The only fault is NoMemory.
fn reaches_all(alloc: Global, core: &mut Core) -> Result<bool, CoreFault>
    ensures found { IfOk result (λ are. are ≡ true → EachIsReached (plain_store core.old)) }
    ensures only { IfOk result (λ are. EachIsReached (plain_store core.old) → are ≡ true) }
    ensures same { core.new ≡ core.old }
{
    let store = core.plain()?;
    match are_reached(alloc, &store) {
        Ok(are) => Ok(are),
        Err(_) => Err(CoreFault::NoMemory),
    }
}

/// The core of a cluster, and whether each block that it has is reached from its retained roots. The only
/// fault is NoMemory.
pub(crate) fn last_core(alloc: Global, cluster: Cluster) -> (Core, Result<bool, CoreFault>)
    ensures core { result.0 ≡ cluster.core }
    ensures found { IfOk result.1 (λ are. are ≡ true → EachIsReached (plain_store result.0)) }
    ensures only { IfOk result.1 (λ are. EachIsReached (plain_store result.0) → are ≡ true) }
{
    let (mut core, _logs) = cluster.into_parts();
    let reached = reaches_all(alloc, &mut core);
    (core, reached)
}
