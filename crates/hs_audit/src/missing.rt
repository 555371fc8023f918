//! What the retained roots of a store reach that is not there.
ghost use Rattle.std.specs.Prelude.{◌≡◌, filter, is_none, map, not, IfOk};
ghost use Rattle.hs_audit.specs.Missing.{kept_by_roots, missing};
ghost use Rattle.hs_model.specs.Plain.{IsPlain, plain_of};
ghost use Rattle.hs_model.specs.Reach.{is_among};

use crate::AuditFault;
use hs_limits::Address;
use hs_model::{PlainBlock, PlainRoot, PlainStore, reached};
use std::alloc::{AllocError, Global};
use std::collections::BTreeSet;

/// The addresses, ascending, that a root which is not dropped reaches and at which no block is
/// present.
pub(crate) fn missing(alloc: Global, store: &PlainStore) -> Result<Vec<Address>, AuditFault>
    requires { IsPlain store.now }
    ensures { IfOk result (λ list. list.items ≡ missing (plain_of store.now)) }
{
    let kept = kept_by_roots(alloc, store.roots.as_slice())?;
    let reached = reached(alloc, store, kept.as_slice())?;
    let present = present(alloc, store.blocks.as_slice())?;
    Ok(absent(alloc, reached.as_slice(), &present)?)
}

/// The addresses of the roots that are not dropped.
fn kept_by_roots(alloc: Global, roots: &[PlainRoot]) -> Result<Vec<Address>, AuditFault>
    ensures { IfOk result (λ found. found.items
        ≡ map (λ root. root.address) (filter (λ root. is_none root.dropped) roots.now)) }
{
    Ok(
        roots
            .iter()
            .filter(|root| root.dropped.is_none())
            .map(|root| root.address)
            .collect(alloc)?,
    )
}

/// The addresses of some blocks, as a set.
fn present(alloc: Global, blocks: &[PlainBlock]) -> Result<BTreeSet<Address>, AllocError>
    ensures { IfOk result (λ set. (a : Address)
        → is_among set.keys a ≡ is_among (map (λ block. block.address) blocks.now) a) }
{
    let mut set = BTreeSet::new(alloc);
    for block in blocks {
        set.insert(block.address)?;
    }
    Ok(set)
}

/// The addresses that are in no set.
fn absent(
    alloc: Global,
    addresses: &[Address],
    present: &BTreeSet<Address>,
) -> Result<Vec<Address>, AuditFault>
    ensures { IfOk result (λ found. found.items
        ≡ filter (λ a. not (is_among present.now.keys a)) addresses.now) }
{
    Ok(
        addresses
            .iter()
            .filter(|address| is_absent(present, address))
            .copied()
            .collect(alloc)?,
    )
}

/// Whether an address is not in a set.
fn is_absent(present: &BTreeSet<Address>, address: &Address) -> bool
    ensures { result ≡ not (is_among present.now.keys address.now) }
{
    !present.contains(address)
}
