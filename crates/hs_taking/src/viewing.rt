//! Reading every disk, before any is written.
ghost use Rattle.std.specs.Prelude.{◌≡◌, ◌*◌, ◌<◌, ◌≤◌, ℕ, None, length, map, slice_index_or, IfErr, IfOk};
ghost use Rattle.hs_limits.specs.Shape.{IsShape};
ghost use Rattle.hs_taking.specs.Disks.{seen_as, seen_at};
ghost use Rattle.hs_taking.specs.Viewed.{IsOnlyRead, IsOther, IsOtherAt, IsViewed};

use crate::TakeFault;
use hs_limits::Shape;
use hs_peerlog::{LogFault, PeerView};
use hs_ports::{Disk, Watch};
use std::alloc::Global;

/// Reads the disk of each peer, and writes none: a view of its log, and None where the disk failed or
/// is no log. A disk of another store, or of another peer, ends it: the first one whose count stands.
pub fn view_all<D: Disk>(
    alloc: Global,
    disks: &mut [D],
    watch: &mut Watch,
    shape: Shape,
) -> Result<Vec<Option<PeerView>>, TakeFault>
    requires shape { IsShape shape }
    requires count { length disks.old ≡ shape.shards * shape.copies }
    ensures viewed { IfOk result (λ views. (peer : ℕ) → peer < length disks.old
        → IsViewed D.tells shape peer
        (seen_at (map (λ disk. seen_as (D.size disk) (D.stands disk) (D.faults disk)) disks.old)
        peer)
        (seen_at (map (λ disk. seen_as (D.size disk) (D.stands disk) (D.faults disk)) disks.new)
        peer) (slice_index_or views.items peer None)) }
    ensures views { IfOk result (λ views. length views.items ≡ length disks.old) }
    ensures other { IfErr result (IsOther D.tells shape
        (map (λ disk. seen_as (D.size disk) (D.stands disk) (D.faults disk)) disks.old)
        (map (λ disk. seen_as (D.size disk) (D.stands disk) (D.faults disk)) disks.new)) }
    ensures read { (peer : ℕ) → peer < length disks.old
        → IsOnlyRead D.tells watch.old watch.new
        (seen_at (map (λ disk. seen_as (D.size disk) (D.stands disk) (D.faults disk)) disks.old)
        peer)
        (seen_at (map (λ disk. seen_as (D.size disk) (D.stands disk) (D.faults disk)) disks.new)
        peer) }
    ensures count { length disks.new ≡ length disks.old }
    ensures ticks { watch.old ≤ watch.new }
{
    let mut views = Vec::new(alloc);
    for peer in 0..shape.shards * shape.copies {
        let place = usize::from(peer);
        let view = match view_one(alloc, &mut disks[place], watch, shape, peer) {
            Ok(view) => view,
            Err(fault) => return Err(fault),
        };
        if views.push(view).is_err() {
            return Err(TakeFault::NoMemory);
        }
    }
    Ok(views)
}

/// Reads the disk of a peer, and does not write it.
fn view_one<D: Disk>(
    alloc: Global,
    disk: &mut D,
    watch: &mut Watch,
    shape: Shape,
    peer: u8,
) -> Result<Option<PeerView>, TakeFault>
    ensures viewed { IfOk result (IsViewed D.tells shape peer
        (seen_as (D.size disk.old) (D.stands disk.old) (D.faults disk.old))
        (seen_as (D.size disk.new) (D.stands disk.new) (D.faults disk.new))) }
    ensures other { IfErr result (IsOtherAt D.tells shape peer
        (seen_as (D.size disk.old) (D.stands disk.old) (D.faults disk.old))
        (seen_as (D.size disk.new) (D.stands disk.new) (D.faults disk.new))) }
    ensures read { IsOnlyRead D.tells watch.old watch.new
        (seen_as (D.size disk.old) (D.stands disk.old) (D.faults disk.old))
        (seen_as (D.size disk.new) (D.stands disk.new) (D.faults disk.new)) }
    ensures ticks { watch.old ≤ watch.new }
{
    match PeerView::read(alloc, disk, watch, shape, peer) {
        Ok(view) => Ok(Some(view)),
        Err(LogFault::Disk) => Ok(None),
        Err(LogFault::NotALog { .. }) => Ok(None),
        Err(LogFault::WrongShape { found }) => Err(TakeFault::WrongShape { peer, found }),
        Err(LogFault::NoMemory) => Err(TakeFault::NoMemory),
    }
}
