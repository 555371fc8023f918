//! The log of a shard, folded entry by entry.
ghost use Rattle.std.specs.Prelude.{◌≡◌, ◌<◌, ◌*◌, ◌≤◌, ◌⊎◌, ℕ, IfErr, IfOk, IfSome, IsSome, None, OnOk, false, is_some, length, map, true};
ghost use Rattle.hs_audit.specs.Rereading.{AreReread, AreStill, AreViewsOf, HasGivenUp, IsLogOf, IsNotViewed, IsStill, IsTakenOf, IsUnviewed, ran_out, viewing_at};
ghost use Rattle.hs_limits.specs.Shape.{IsShape, peer_of};
ghost use Rattle.hs_memory.specs.Forget.{apply_all};
ghost use Rattle.hs_ports.specs.Fault.{HasRisen};
ghost use Rattle.hs_shard.specs.Facts.{empty_catalogue};
ghost use Rattle.hs_taking.specs.Disks.{seen_as};
ghost use Rattle.hs_taking.specs.Viewed.{IsViewOf};

use crate::AuditFault;
use hs_block::Addresser;
use hs_limits::{Limits, Shape};
use hs_peerlog::{LogFault, PeerView};
use hs_ports::Disk;
use hs_shard::Catalogue;
use hs_taking::{load, ranks_of, taken_peer};
use std::alloc::Global;

/// The catalogue of a shard's log: of the views of its peers that of greatest rank. Where a read of
/// it fails its view is given up, and a log is taken anew from the others.
pub(crate) fn take_shard<A: Addresser, D: Disk>(
    alloc: Global,
    naming: &A,
    views: &mut [Option<PeerView>],
    disks: &mut [D],
    shape: Shape,
    shard: u8,
) -> Result<Catalogue, AuditFault>
    requires shape { IsShape shape }
    requires shard { shard < shape.shards }
    requires views { length views.old ≡ shape.shards * shape.copies }
    requires count { length disks.old ≡ shape.shards * shape.copies }
    requires viewed { AreViewsOf D.tells shape
        (map (λ disk. seen_as (D.size disk) (D.stands disk) (D.faults disk)) disks.old) views.old }
    ensures taken { IfOk result (IsTakenOf D.tells
        (apply_all (A.name naming.now) (empty_catalogue shape shard)) shape
        (map (λ disk. seen_as (D.size disk) (D.stands disk) (D.faults disk)) disks.old)
        views.new shard) }
    ensures lost { IfErr result (IsUnviewed shape views.new shard) }
    ensures still { AreStill D.tells (shape.shards * shape.copies)
        (map (λ disk. seen_as (D.size disk) (D.stands disk) (D.faults disk)) disks.old)
        (map (λ disk. seen_as (D.size disk) (D.stands disk) (D.faults disk)) disks.new) }
    ensures reread { ran_out result ≡ false → AreReread D.tells (shape.shards * shape.copies)
        (map (λ disk. seen_as (D.size disk) (D.stands disk) (D.faults disk)) disks.old)
        (map (λ disk. seen_as (D.size disk) (D.stands disk) (D.faults disk)) disks.new)
        views.old views.new }
    // The views of other shards stay.
    ensures others { (peer : ℕ) → (peer < peer_of shape shard 0)
        ⊎ (peer_of shape shard shape.copies ≤ peer)
        → viewing_at views.new peer ≡ viewing_at views.old peer }
    ensures same_views { length views.new ≡ length views.old }
    ensures same_count { length disks.new ≡ length disks.old }
{
    for _attempt in 0..shape.copies {
        match take_best(alloc, naming, views, disks, shape, shard) {
            Ok(Some(catalogue)) => return Ok(catalogue),
            Ok(None) => {}
            Err(fault) => return Err(fault),
        }
    }
    Err(AuditFault::ShardLost { shard })
}

/// The catalogue of the log of greatest rank. None where a read of it failed: its view is given up.
fn take_best<A: Addresser, D: Disk>(
    alloc: Global,
    naming: &A,
    views: &mut [Option<PeerView>],
    disks: &mut [D],
    shape: Shape,
    shard: u8,
) -> Result<Option<Catalogue>, AuditFault>
    requires shape { IsShape shape }
    requires shard { shard < shape.shards }
    requires views { length views.old ≡ shape.shards * shape.copies }
    requires count { length disks.old ≡ shape.shards * shape.copies }
    requires viewed { AreViewsOf D.tells shape
        (map (λ disk. seen_as (D.size disk) (D.stands disk) (D.faults disk)) disks.old) views.old }
    ensures taken { IfOk result (λ found. IfSome found (IsTakenOf D.tells
        (apply_all (A.name naming.now) (empty_catalogue shape shard)) shape
        (map (λ disk. seen_as (D.size disk) (D.stands disk) (D.faults disk)) disks.old)
        views.new shard)) }
    ensures given_up { IfOk result (λ found. found ≡ None
        → HasGivenUp shape shard views.old views.new) }
    ensures lost { IfErr result (IsUnviewed shape views.new shard) }
    ensures still { AreStill D.tells (shape.shards * shape.copies)
        (map (λ disk. seen_as (D.size disk) (D.stands disk) (D.faults disk)) disks.old)
        (map (λ disk. seen_as (D.size disk) (D.stands disk) (D.faults disk)) disks.new) }
    ensures reread { ran_out result ≡ false → AreReread D.tells (shape.shards * shape.copies)
        (map (λ disk. seen_as (D.size disk) (D.stands disk) (D.faults disk)) disks.old)
        (map (λ disk. seen_as (D.size disk) (D.stands disk) (D.faults disk)) disks.new)
        views.old views.new }
    ensures others { (peer : ℕ) → (peer < peer_of shape shard 0)
        ⊎ (peer_of shape shard shape.copies ≤ peer)
        → viewing_at views.new peer ≡ viewing_at views.old peer }
    ensures same_views { length views.new ≡ length views.old }
    ensures same_count { length disks.new ≡ length disks.old }
{
    let ranks = ranks_of(alloc, views)?;
    let peer = taken_peer(ranks.as_slice(), shape, shard);
    let place = usize::from(peer);
    let found = read_log(
        alloc,
        naming,
        &views[place],
        &mut disks[place],
        shape,
        peer,
        shard,
    );
    match found {
        Ok(Some(catalogue)) => Ok(Some(catalogue)),
        Ok(None) => {
            views[place] = None;
            Ok(None)
        }
        Err(fault) => Err(fault),
    }
}

/// The catalogue of a view's log. None where a read of it failed.
fn read_log<A: Addresser, D: Disk>(
    alloc: Global,
    naming: &A,
    view: &Option<PeerView>,
    disk: &mut D,
    shape: Shape,
    peer: u8,
    shard: u8,
) -> Result<Option<Catalogue>, AuditFault>
    requires shape { IsShape shape }
    requires shard { shard < shape.shards }
    requires viewed { IfSome view.now (IsViewOf D.tells shape peer
        (seen_as (D.size disk.old) (D.stands disk.old) (D.faults disk.old))) }
    ensures log { IfOk result (λ found. IfSome found (IsLogOf D.tells
        (apply_all (A.name naming.now) (empty_catalogue shape shard))
        (seen_as (D.size disk.old) (D.stands disk.old) (D.faults disk.old)))) }
    ensures viewed { OnOk result (IsSome view.now) }
    ensures lost { IfErr result (IsNotViewed shard view.now) }
    ensures still { IsStill D.tells
        (seen_as (D.size disk.old) (D.stands disk.old) (D.faults disk.old))
        (seen_as (D.size disk.new) (D.stands disk.new) (D.faults disk.new)) }
    ensures calm { IfOk result (λ found. is_some found ≡ true
        → D.faults disk.new ≡ D.faults disk.old) }
    ensures failed { IfOk result (λ found. found ≡ None → D.tells
        → HasRisen (D.faults disk.old) (D.faults disk.new)) }
    ensures lost_calm { IfErr result (λ fault. (lost : ℕ) → fault ≡ AuditFault.ShardLost lost
        → D.faults disk.new ≡ D.faults disk.old) }
{
    let Some(seen) = view else {
        return Err(AuditFault::ShardLost { shard });
    };
    match load(alloc, naming, seen, disk, shape, Limits::greatest(), shard) {
        Ok(loaded) => Ok(Some(loaded.catalogue)),
        Err(LogFault::NoMemory) => Err(AuditFault::NoMemory),
        Err(LogFault::Disk) => Ok(None),
        Err(LogFault::NotALog { .. }) => Ok(None),
        Err(LogFault::WrongShape { .. }) => Ok(None),
    }
}
