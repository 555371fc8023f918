//! Reading the disk of every peer, before any list is compared.
ghost use Rattle.std.specs.Prelude.{◌≡◌, ◌*◌, ◌<◌, ◌≤◌, ℕ, length, map, IfErr, IfOk};
ghost use Rattle.hs_limits.specs.Shape.{IsShape};
ghost use Rattle.hs_scrub.specs.Scrubbed.{IsOther};
ghost use Rattle.hs_scrub.specs.Steps.{AreLooked, IsLooked, IsOtherAt};
ghost use Rattle.hs_taking.specs.Disks.{seen_as, seen_at};
ghost use Rattle.hs_taking.specs.Viewed.{IsOnlyRead};

use crate::{PeerMark, ScrubFault};
use hs_limits::Shape;
use hs_peerlog::{LogFault, PeerView};
use hs_ports::{Disk, Watch};
use std::alloc::Global;

/// What was found of each peer: a view of its log, and else, in `marks`, why it has none.
#[derive(Drop)]
pub(crate) struct Looks {
    pub(crate) views: Vec<Option<PeerView>>,
    pub(crate) marks: Vec<PeerMark>,
}

/// Reads the disk of each peer, and writes none. A disk of another store, or of another peer, ends it:
/// the first one whose count stands.
pub(crate) fn look_at_all<D: Disk>(
    alloc: Global,
    disks: &mut [D],
    watch: &mut Watch,
    shape: Shape,
) -> Result<Looks, ScrubFault>
    requires shape { IsShape shape }
    requires count { length disks.old ≡ shape.shards * shape.copies }
    ensures looked { IfOk result (λ looks. AreLooked D.tells shape
        (map (λ disk. seen_as (D.size disk) (D.stands disk) (D.faults disk)) disks.old)
        (map (λ disk. seen_as (D.size disk) (D.stands disk) (D.faults disk)) disks.new)
        looks.views.items looks.marks.items (length disks.old)) }
    ensures views { IfOk result (λ looks. length looks.views.items ≡ length disks.old) }
    ensures marks { IfOk result (λ looks. length looks.marks.items ≡ length disks.old) }
    ensures other { IfErr result (IsOther D.tells shape
        (map (λ disk. seen_as (D.size disk) (D.stands disk) (D.faults disk)) disks.old)
        (map (λ disk. seen_as (D.size disk) (D.stands disk) (D.faults disk)) disks.new)) }
    ensures read { (peer : ℕ) → peer < length disks.old
        → IsOnlyRead D.tells watch.old watch.new
        (seen_at (map (λ disk. seen_as (D.size disk) (D.stands disk) (D.faults disk)) disks.old)
        peer)
        (seen_at (map (λ disk. seen_as (D.size disk) (D.stands disk) (D.faults disk)) disks.new)
        peer) }
    ensures count { length disks.new ≡ length disks.old }
    ensures ticks { watch.old ≤ watch.new }
{
    let mut views = Vec::new(alloc);
    let mut marks = Vec::new(alloc);
    for peer in 0..shape.shards * shape.copies {
        let place = usize::from(peer);
        let look = match look_at(alloc, &mut disks[place], watch, shape, peer) {
            Ok(look) => look,
            Err(fault) => return Err(fault),
        };
        if views.push(look.view).is_err() {
            return Err(ScrubFault::NoMemory);
        }
        if marks.push(look.mark).is_err() {
            return Err(ScrubFault::NoMemory);
        }
    }
    Ok(Looks { views, marks })
}

/// A view of a peer's log, or why it has none.
#[derive(Drop)]
struct Look {
    view: Option<PeerView>,
    mark: PeerMark,
}

/// Reads the disk of a peer, and does not write it.
fn look_at<D: Disk>(
    alloc: Global,
    disk: &mut D,
    watch: &mut Watch,
    shape: Shape,
    peer: u8,
) -> Result<Look, ScrubFault>
    ensures looked { IfOk result (λ look. IsLooked D.tells shape peer
        (seen_as (D.size disk.old) (D.stands disk.old) (D.faults disk.old))
        (seen_as (D.size disk.new) (D.stands disk.new) (D.faults disk.new)) look.view look.mark) }
    ensures other { IfErr result (IsOtherAt D.tells shape peer
        (seen_as (D.size disk.old) (D.stands disk.old) (D.faults disk.old))
        (seen_as (D.size disk.new) (D.stands disk.new) (D.faults disk.new))) }
    ensures read { IsOnlyRead D.tells watch.old watch.new
        (seen_as (D.size disk.old) (D.stands disk.old) (D.faults disk.old))
        (seen_as (D.size disk.new) (D.stands disk.new) (D.faults disk.new)) }
    ensures ticks { watch.old ≤ watch.new }
{
    match PeerView::read(alloc, disk, watch, shape, peer) {
        Ok(view) => Ok(Look {
            view: Some(view),
            mark: PeerMark::Same,
        }),
        Err(LogFault::Disk) => Ok(Look {
            view: None,
            mark: PeerMark::Fault,
        }),
        Err(LogFault::NotALog { at }) => Ok(Look {
            view: None,
            mark: PeerMark::NoLog { at },
        }),
        Err(LogFault::WrongShape { found }) => Err(ScrubFault::WrongShape { peer, found }),
        Err(LogFault::NoMemory) => Err(ScrubFault::NoMemory),
    }
}
