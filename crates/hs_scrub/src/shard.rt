//! Marking the peers of a shard by the log that is taken of it.
ghost use Rattle.std.specs.Prelude.{◌≡◌, ◌≤◌, ◌<◌, ◌⊎◌, ℕ, List, Some, None, IsSome, false, length, map, true, IfErr, IfOk, IfSome, OnOk};
ghost use Rattle.hs_limits.specs.declared.shape.Shape.{Shape};
ghost use Rattle.hs_peerlog.specs.Caused.{IsOutside};
ghost use Rattle.hs_peerlog.specs.Views.{Viewing};
ghost use Rattle.hs_scrub.specs.declared.fault.ScrubFault.TheVariants.{NoMemory};
ghost use Rattle.hs_scrub.specs.declared.mark.PeerMark.{PeerMark};
ghost use Rattle.hs_scrub.specs.declared.mark.PeerMark.TheVariants.{Same};
ghost use Rattle.hs_scrub.specs.Scrubbed.{mark_at};
ghost use Rattle.hs_scrub.specs.Steps.{AreCalled, AreLooked, AreStill, AreViews, Ends, Fits, Goes, IsGreatest, IsLostBy, Settles, Touches, mark_of, view_at};
ghost use Rattle.hs_taking.specs.Disks.{DiskSeen, seen_as, seen_at};

use crate::compare::{Refused, compare};
use crate::{PeerMark, ScrubFault};
use hs_coldstart::choose;
use hs_peerlog::{LogFault, PeerView};
use hs_ports::Disk;
use hs_taking::ranks_of;
use std::alloc::{AllocError, Global};

/// Marks the peers from one to another by the log of greatest rank among theirs: the number of its last
/// entry, 0 where none has a log. A log of which a read is refused is lost; where it is the taken one,
/// another is taken.
pub(crate) fn mark_shard<D: Disk>(
    alloc: Global,
    views: &mut [Option<PeerView>],
    marks: &mut [PeerMark],
    disks: &mut [D],
    from: usize,
    to: usize,
) -> Result<u64, ScrubFault>
    requires order { from ≤ to }
    requires views { length views.old ≡ length disks.old }
    requires marks { length marks.old ≡ length disks.old }
    requires within { to ≤ length disks.old }
    requires stands { AreViews D.tells views.old
        (map (λ disk. seen_as (D.size disk) (D.stands disk) (D.faults disk)) disks.old) }
    ensures settled { IfOk result (λ count. Settles D.tells from to count (record {
      disks = map (λ disk. seen_as (D.size disk) (D.stands disk) (D.faults disk)) disks.old;
      views = views.old;
      marks = marks.old;
    }) (record {
      disks = map (λ disk. seen_as (D.size disk) (D.stands disk) (D.faults disk)) disks.new;
      views = views.new;
      marks = marks.new;
    })) }
    ensures called { AreCalled D.tells
        (map (λ disk. seen_as (D.size disk) (D.stands disk) (D.faults disk)) disks.old)
        (map (λ disk. seen_as (D.size disk) (D.stands disk) (D.faults disk)) disks.new) }
    ensures memory { IfErr result (λ fault. fault ≡ NoMemory) }
    ensures views { length views.new ≡ length views.old }
    ensures marks { length marks.new ≡ length marks.old }
    ensures count { length disks.new ≡ length disks.old }
{
    for _round in from..to {
        let taken = match taken_of(alloc, views, from, to)? {
            Some(taken) => taken,
            None => return Ok(0),
        };
        let lasts = match mark_peers(views, marks, disks, from, to, taken) {
            Ok(lasts) => lasts,
            Err(fault) => return Err(fault),
        };
        if lasts {
            return Ok(last_of(views, taken));
        }
    }
    Ok(0)
}

/// The peer from one to another whose log has the greatest rank, of equals the lowest; None where none
/// has a log.
fn taken_of(
    alloc: Global,
    views: &[Option<PeerView>],
    from: usize,
    to: usize,
) -> Result<Option<usize>, AllocError>
    requires order { from ≤ to }
    requires within { to ≤ length views.now }
    ensures found { IfOk result (λ taken. IfSome taken (λ peer. (view : Viewing)
        × IsGreatest views.now from to peer view)) }
    ensures none { IfOk result (λ taken. taken ≡ None → (peer : ℕ) → from ≤ peer → peer < to
        → view_at views.now peer ≡ None) }
{
    let ranks = ranks_of(alloc, views)?;
    let own = &ranks.as_slice()[from..to];
    match choose(own) {
        Some(copy) => Ok(Some(from + copy)),
        None => Ok(None),
    }
}

/// The number of the last entry of a peer's log, where it has one.
fn last_of(views: &[Option<PeerView>], peer: usize) -> u64
    requires { peer < length views.now }
    ensures { (view : Viewing) → view_at views.now peer ≡ Some view → result ≡ view.rank.number }
{
    match &views[peer] {
        Some(view) => view.last(),
        None => 0,
    }
}

/// Marks the peers from one to another by the log of the taken one: whether that is there still.
fn mark_peers<D: Disk>(
    views: &mut [Option<PeerView>],
    marks: &mut [PeerMark],
    disks: &mut [D],
    from: usize,
    to: usize,
    taken: usize,
) -> Result<bool, ScrubFault>
    requires low { from ≤ taken }
    requires high { taken < to }
    requires views { length views.old ≡ length disks.old }
    requires marks { length marks.old ≡ length disks.old }
    requires within { to ≤ length disks.old }
    requires taken { IsSome (view_at views.old taken) }
    requires stands { AreViews D.tells views.old
        (map (λ disk. seen_as (D.size disk) (D.stands disk) (D.faults disk)) disks.old) }
    ensures goes { IfOk result (λ lasts. lasts ≡ true → Goes D.tells from to to taken (record {
      disks = map (λ disk. seen_as (D.size disk) (D.stands disk) (D.faults disk)) disks.old;
      views = views.old;
      marks = marks.old;
    }) (record {
      disks = map (λ disk. seen_as (D.size disk) (D.stands disk) (D.faults disk)) disks.new;
      views = views.new;
      marks = marks.new;
    })) }
    ensures ends { IfOk result (λ lasts. lasts ≡ false → Ends D.tells from to taken (record {
      disks = map (λ disk. seen_as (D.size disk) (D.stands disk) (D.faults disk)) disks.old;
      views = views.old;
      marks = marks.old;
    }) (record {
      disks = map (λ disk. seen_as (D.size disk) (D.stands disk) (D.faults disk)) disks.new;
      views = views.new;
      marks = marks.new;
    })) }
    ensures called { AreCalled D.tells
        (map (λ disk. seen_as (D.size disk) (D.stands disk) (D.faults disk)) disks.old)
        (map (λ disk. seen_as (D.size disk) (D.stands disk) (D.faults disk)) disks.new) }
    ensures memory { IfErr result (λ fault. fault ≡ NoMemory) }
    ensures views { length views.new ≡ length views.old }
    ensures marks { length marks.new ≡ length marks.old }
    ensures count { length disks.new ≡ length disks.old }
{
    marks[taken] = PeerMark::Same;
    for place in from..to {
        let lasts = match mark_one(views, marks, disks, taken, place) {
            Ok(lasts) => lasts,
            Err(fault) => return Err(fault),
        };
        if !lasts {
            return Ok(false);
        }
    }
    Ok(true)
}

/// Marks a peer by the log of the taken one: whether that is there still.
fn mark_one<D: Disk>(
    views: &mut [Option<PeerView>],
    marks: &mut [PeerMark],
    disks: &mut [D],
    taken: usize,
    place: usize,
) -> Result<bool, ScrubFault>
    requires views { length views.old ≡ length disks.old }
    requires marks { length marks.old ≡ length disks.old }
    requires within { taken < length disks.old }
    requires place { place < length disks.old }
    requires taken { IsSome (view_at views.old taken) }
    requires same { mark_at marks.old taken ≡ Same }
    requires stands { AreViews D.tells views.old
        (map (λ disk. seen_as (D.size disk) (D.stands disk) (D.faults disk)) disks.old) }
    ensures goes { IfOk result (λ lasts. lasts ≡ true → Touches D.tells place (record {
      disks = map (λ disk. seen_as (D.size disk) (D.stands disk) (D.faults disk)) disks.old;
      views = views.old;
      marks = marks.old;
    }) (record {
      disks = map (λ disk. seen_as (D.size disk) (D.stands disk) (D.faults disk)) disks.new;
      views = views.new;
      marks = marks.new;
    })) }
    ensures fits { IfOk result (λ lasts. lasts ≡ true → (shape : Shape) (begun : List DiskSeen)
        (count : ℕ) → AreLooked D.tells shape begun
        (map (λ disk. seen_as (D.size disk) (D.stands disk) (D.faults disk)) disks.old)
        views.old marks.old count → taken < count → place < count
        → Fits D.tells (seen_at begun taken) (seen_at begun place) (view_at views.new place)
        (mark_at marks.new place)) }
    ensures own { IfOk result (λ lasts. lasts ≡ true
        → (view_at views.new taken ≡ view_at views.old taken)
        × (mark_at marks.new taken ≡ Same)) }
    ensures ends { IfOk result (λ lasts. lasts ≡ false → Touches D.tells taken (record {
      disks = map (λ disk. seen_as (D.size disk) (D.stands disk) (D.faults disk)) disks.old;
      views = views.old;
      marks = marks.old;
    }) (record {
      disks = map (λ disk. seen_as (D.size disk) (D.stands disk) (D.faults disk)) disks.new;
      views = views.new;
      marks = marks.new;
    }) × (view_at views.new taken ≡ None)) }
    ensures called { AreCalled D.tells
        (map (λ disk. seen_as (D.size disk) (D.stands disk) (D.faults disk)) disks.old)
        (map (λ disk. seen_as (D.size disk) (D.stands disk) (D.faults disk)) disks.new) }
    ensures memory { IfErr result (λ fault. fault ≡ NoMemory) }
    ensures views { length views.new ≡ length views.old }
    ensures marks { length marks.new ≡ length marks.old }
    ensures count { length disks.new ≡ length disks.old }
{
    if place == taken {
        return Ok(true);
    }
    match compare_at(views, disks, taken, place) {
        Ok(None) => Ok(true),
        Ok(Some(mark)) => {
            marks[place] = mark;
            Ok(true)
        }
        Err(refused) => {
            let mark = match lost_mark(refused.fault) {
                Some(mark) => mark,
                None => return Err(ScrubFault::NoMemory),
            };
            views[refused.peer] = None;
            marks[refused.peer] = mark;
            Ok(refused.peer != taken)
        }
    }
}

/// The mark of a peer by its list and that of the taken one; None where it has no log.
fn compare_at<D: Disk>(
    views: &[Option<PeerView>],
    disks: &mut [D],
    taken: usize,
    place: usize,
) -> Result<Option<PeerMark>, Refused>
    requires views { length views.now ≡ length disks.old }
    requires within { taken < length disks.old }
    requires place { place < length disks.old }
    requires other { taken ≡ place → ⊥ }
    requires taken { IsSome (view_at views.now taken) }
    requires stands { AreViews D.tells views.now
        (map (λ disk. seen_as (D.size disk) (D.stands disk) (D.faults disk)) disks.old) }
    ensures none { IfOk result (λ mark. mark ≡ None → view_at views.now place ≡ None) }
    ensures some { IfOk result (λ mark. IsSome mark → IsSome (view_at views.now place)) }
    ensures fits { (shape : Shape) (begun : List DiskSeen) (marks : List PeerMark) (count : ℕ)
        → AreLooked D.tells shape begun
        (map (λ disk. seen_as (D.size disk) (D.stands disk) (D.faults disk)) disks.old)
        views.now marks count → taken < count → place < count → IfOk result (λ mark.
        IfSome mark (Fits D.tells (seen_at begun taken) (seen_at begun place)
        (view_at views.now place))) }
    ensures still { OnOk result (AreStill D.tells
        (map (λ disk. seen_as (D.size disk) (D.stands disk) (D.faults disk)) disks.old)
        (map (λ disk. seen_as (D.size disk) (D.stands disk) (D.faults disk)) disks.new)) }
    ensures one { IfErr result (λ refused. (refused.peer ≡ taken) ⊎ (refused.peer ≡ place)) }
    ensures viewed { IfErr result (λ refused. IsSome (view_at views.now refused.peer)) }
    ensures lost { IfErr result (λ refused. IsLostBy D.tells
        (map (λ disk. seen_as (D.size disk) (D.stands disk) (D.faults disk)) disks.old)
        (map (λ disk. seen_as (D.size disk) (D.stands disk) (D.faults disk)) disks.new)
        refused.peer refused.fault) }
    ensures outside { (shape : Shape) (begun : List DiskSeen) (marks : List PeerMark) (count : ℕ)
        → AreLooked D.tells shape begun
        (map (λ disk. seen_as (D.size disk) (D.stands disk) (D.faults disk)) disks.old)
        views.now marks count → IfErr result (λ refused. refused.peer < count → D.tells
        → IsOutside refused.fault) }
    ensures count { length disks.new ≡ length disks.old }
{
    let Some(whole) = &views[taken] else {
        return Ok(None);
    };
    let Some(own) = &views[place] else {
        return Ok(None);
    };
    match compare(whole, own, disks, taken, place) {
        Ok(mark) => Ok(Some(mark)),
        Err(refused) => Err(refused),
    }
}

/// The mark of a peer of whose log a read was refused so; None for want of memory.
pub(crate) fn lost_mark(fault: LogFault) -> Option<PeerMark>
    ensures { result ≡ mark_of fault }
{
    match fault {
        LogFault::NotALog { at } => Some(PeerMark::NoLog { at }),
        // A header is not read here.
        LogFault::WrongShape { .. } => Some(PeerMark::NoLog { at: 6 }),
        LogFault::Disk => Some(PeerMark::Fault),
        LogFault::NoMemory => None,
    }
}
