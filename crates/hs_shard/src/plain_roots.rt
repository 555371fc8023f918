//! The roots of a plain store in their order, with those of a shard.
ghost use Rattle.std.specs.Prelude.{◌≡◌, IfOk, OnOk};
ghost use Rattle.std.specs.Ordering.{is_gt};
ghost use Rattle.hs_model.specs.Plain.{root_of};
ghost use Rattle.hs_model.specs.Store.{dropped_cmp, place_root, root_cmp};
ghost use Rattle.hs_shard.specs.Adding.{RiseInOrder, listed_roots};
ghost use Rattle.hs_shard.specs.Plain.{add_roots};

use hs_limits::ListOf;
use hs_model::PlainRoot;
use hs_roots::RootRecord;
use std::alloc::{AllocError, Global};
use std::cmp::Ordering;

/// Some roots with a shard's, each in its place.
pub(crate) fn add_roots(
    alloc: Global,
    records: &[RootRecord],
    roots: ListOf<PlainRoot>,
) -> Result<ListOf<PlainRoot>, AllocError>
    requires { RiseInOrder roots }
    ensures value { IfOk result
        (λ placed. listed_roots placed ≡ add_roots records.now (listed_roots roots)) }
    ensures ordered { IfOk result (λ placed. RiseInOrder placed) }
{
    let mut placed = roots.into_vec();
    for record in records {
        let root = PlainRoot {
            key: record.key.copy(alloc)?,
            address: record.address,
            dropped: record.dropped,
        };
        place_root(&mut placed, root)?;
    }
    Ok(ListOf::from_vec(placed))
}

/// Puts a root in its place.
fn place_root(roots: &mut Vec<PlainRoot>, root: PlainRoot) -> Result<(), AllocError>
    requires { RiseInOrder roots.old.items }
    ensures placed { OnOk result (listed_roots roots.new.items
        ≡ place_root (root_of root) (listed_roots roots.old.items)) }
    ensures ordered { OnOk result (RiseInOrder roots.new.items) }
{
    let place = roots
        .as_slice()
        .partition_point(|other| is_after(&root, other));
    roots.insert(place, root)?;
    Ok(())
}

/// Whether a root comes after another one.
fn is_after(root: &PlainRoot, other: &PlainRoot) -> bool
    ensures { result ≡ is_gt (root_cmp (root_of root.now) (root_of other.now)) }
{
    order(root, other) == Ordering::Greater
}

/// The order of roots: by key, then by the epoch of the drop, then by address.
fn order(root: &PlainRoot, other: &PlainRoot) -> Ordering
    ensures { result ≡ root_cmp (root_of root.now) (root_of other.now) }
{
    let addresses = root.address.cmp(&other.address);
    let dropped = order_of_drops(root.dropped, other.dropped);
    root.key.cmp(&other.key).then(dropped.then(addresses))
}

/// The order of the epochs of two drops; what is not dropped comes last.
fn order_of_drops(one: Option<u64>, other: Option<u64>) -> Ordering
    ensures { result ≡ dropped_cmp one other }
{
    match (one, other) {
        (None, None) => Ordering::Equal,
        (None, Some(_)) => Ordering::Greater,
        (Some(_), None) => Ordering::Less,
        (Some(one), Some(other)) => one.cmp(&other),
    }
}
