//! The logs of all shards, as one store without data.
ghost use Rattle.std.specs.Prelude.{◌≡◌, ◌*◌, IfErr, IfOk, false, length, map, true};
ghost use Rattle.hs_audit.specs.Rereading.{AreReread, AreStill, AreViewsOf, IsFirstUnviewed, IsGathered, ran_out};
ghost use Rattle.hs_limits.specs.Limits.{greatest_limits};
ghost use Rattle.hs_limits.specs.Shape.{IsShape};
ghost use Rattle.hs_model.specs.Plain.{IsPlain, plain_of};
ghost use Rattle.hs_shard.specs.Plain.{add_shard};
ghost use Rattle.hs_taking.specs.Disks.{seen_as};

use crate::AuditFault;
use crate::reading::take_shard;
use hs_block::Addresser;
use hs_limits::Shape;
use hs_model::PlainStore;
use hs_peerlog::PeerView;
use hs_ports::Disk;
use hs_shard::{Catalogue, empty_store};
use std::alloc::Global;

/// The store that the logs of all shards amount to, without the blocks' data. It has also the root
/// records that count in no epoch any more.
pub(crate) fn gather<A: Addresser, D: Disk>(
    alloc: Global,
    naming: &A,
    views: &mut [Option<PeerView>],
    disks: &mut [D],
    shape: Shape,
) -> Result<PlainStore, AuditFault>
    requires shape { IsShape shape }
    requires views { length views.old ≡ shape.shards * shape.copies }
    requires count { length disks.old ≡ shape.shards * shape.copies }
    requires viewed { AreViewsOf D.tells shape
        (map (λ disk. seen_as (D.size disk) (D.stands disk) (D.faults disk)) disks.old) views.old }
    ensures gathered { IfOk result (IsGathered D.tells
        (record { name = A.name naming.now; limits = greatest_limits; shape = shape })
        (map (λ disk. seen_as (D.size disk) (D.stands disk) (D.faults disk)) disks.old)
        views.new shape.shards) }
    ensures plain { IfOk result IsPlain }
    ensures lost { IfErr result (IsFirstUnviewed shape views.new) }
    ensures still { AreStill D.tells (shape.shards * shape.copies)
        (map (λ disk. seen_as (D.size disk) (D.stands disk) (D.faults disk)) disks.old)
        (map (λ disk. seen_as (D.size disk) (D.stands disk) (D.faults disk)) disks.new) }
    ensures reread { ran_out result ≡ false → AreReread D.tells (shape.shards * shape.copies)
        (map (λ disk. seen_as (D.size disk) (D.stands disk) (D.faults disk)) disks.old)
        (map (λ disk. seen_as (D.size disk) (D.stands disk) (D.faults disk)) disks.new)
        views.old views.new }
    ensures same_count { length disks.new ≡ length disks.old }
{
    let mut store = empty_store(alloc, shape)?;
    for shard in 0..shape.shards {
        let catalogue = match take_shard(alloc, naming, views, disks, shape, shard) {
            Ok(catalogue) => catalogue,
            Err(fault) => return Err(fault),
        };
        if !add_shard(catalogue, &mut store) {
            return Err(AuditFault::NoMemory);
        }
    }
    Ok(store)
}

/// Puts a shard into a store that has nothing of it yet: whether there was memory.
fn add_shard(mut catalogue: Catalogue, store: &mut PlainStore) -> bool
    requires plain { IsPlain store.old }
    requires shape { store.old.shape ≡ catalogue.shape }
    ensures added { result ≡ true
        → plain_of store.new ≡ add_shard catalogue (plain_of store.old) }
    ensures plain { result ≡ true → IsPlain store.new }
    ensures shape { result ≡ true → store.new.shape ≡ store.old.shape }
{
    catalogue.plain(store).is_ok()
}
