//! Comparing a peer's list with the taken one, entry by entry.
ghost use Rattle.std.specs.Prelude.{◌≡◌, ◌↔◌, ◌≤◌, ◌<◌, ◌⊎◌, ℕ, List, length, map, true, IfErr, IfOk, IsTrue, OnOk};
ghost use Rattle.hs_entry.specs.declared.entry.Entry.{Entry};
ghost use Rattle.hs_peerlog.specs.Caused.{IsOutside};
ghost use Rattle.hs_peerlog.specs.Lists.{numbered_entry};
ghost use Rattle.hs_peerlog.specs.Views.{HasView};
ghost use Rattle.hs_scrub.specs.Marks.{IsMarked, is_read};
ghost use Rattle.hs_scrub.specs.Steps.{AreStill, IsLostBy};
ghost use Rattle.hs_side.specs.Standing.{Stands};
ghost use Rattle.hs_taking.specs.Disks.{seen_as, seen_at};

use crate::PeerMark;
use hs_entry::Entry;
use hs_peerlog::{LogFault, PeerView};
use hs_ports::Disk;

/// A read of the log of a peer that was refused.
#[derive(Clone, Copy, Debug)]
pub(crate) struct Refused {
    pub(crate) peer: usize,
    pub(crate) fault: LogFault,
}

/// The mark of a peer's list beside the taken one, by reads of both. It holds one entry of each.
pub(crate) fn compare<D: Disk>(
    taken: &PeerView,
    own: &PeerView,
    disks: &mut [D],
    from: usize,
    place: usize,
) -> Result<PeerMark, Refused>
    requires from { from < length disks.old }
    requires place { place < length disks.old }
    requires other { from ≡ place → ⊥ }
    requires taken { Stands D.tells taken.now.log ((seen_at (map (λ disk. seen_as (D.size disk)
        (D.stands disk) (D.faults disk)) disks.old) from).size taken.now.log.side)
        (seen_at (map (λ disk. seen_as (D.size disk) (D.stands disk) (D.faults disk)) disks.old)
        from).stands }
    requires own { Stands D.tells own.now.log ((seen_at (map (λ disk. seen_as (D.size disk)
        (D.stands disk) (D.faults disk)) disks.old) place).size own.now.log.side)
        (seen_at (map (λ disk. seen_as (D.size disk) (D.stands disk) (D.faults disk)) disks.old)
        place).stands }
    ensures marked { D.tells → (whole list : List (ℕ × Entry)) → HasView taken.now
        (seen_at (map (λ disk. seen_as (D.size disk) (D.stands disk) (D.faults disk)) disks.old)
        from).stands.seen whole → HasView own.now
        (seen_at (map (λ disk. seen_as (D.size disk) (D.stands disk) (D.faults disk)) disks.old)
        place).stands.seen list → IfOk result (λ mark. IsMarked whole mark list) }
    ensures read { IfOk result (λ mark. is_read mark ≡ true) }
    ensures still { OnOk result (AreStill D.tells
        (map (λ disk. seen_as (D.size disk) (D.stands disk) (D.faults disk)) disks.old)
        (map (λ disk. seen_as (D.size disk) (D.stands disk) (D.faults disk)) disks.new)) }
    ensures one { IfErr result (λ refused. (refused.peer ≡ from) ⊎ (refused.peer ≡ place)) }
    ensures lost { IfErr result (λ refused. IsLostBy D.tells
        (map (λ disk. seen_as (D.size disk) (D.stands disk) (D.faults disk)) disks.old)
        (map (λ disk. seen_as (D.size disk) (D.stands disk) (D.faults disk)) disks.new)
        refused.peer refused.fault) }
    ensures outside_taken { D.tells → (list : List (ℕ × Entry)) → HasView taken.now
        (seen_at (map (λ disk. seen_as (D.size disk) (D.stands disk) (D.faults disk)) disks.old)
        from).stands.seen list
        → IfErr result (λ refused. refused.peer ≡ from → IsOutside refused.fault) }
    ensures outside_own { D.tells → (list : List (ℕ × Entry)) → HasView own.now
        (seen_at (map (λ disk. seen_as (D.size disk) (D.stands disk) (D.faults disk)) disks.old)
        place).stands.seen list
        → IfErr result (λ refused. refused.peer ≡ place → IsOutside refused.fault) }
    ensures count { length disks.new ≡ length disks.old }
{
    'entries: for index in 0..own.last() {
        let number = index + 1;
        let one = match read_at(own, disks, place, number) {
            Ok(one) => one,
            Err(fault) => return Err(Refused { peer: place, fault }),
        };
        let other = match read_at(taken, disks, from, number) {
            Ok(other) => other,
            Err(fault) => return Err(Refused { peer: from, fault }),
        };
        if !are_same(&one, &other) {
            return Ok(PeerMark::Differs { number });
        }
    }
    if own.last() < taken.last() {
        return Ok(PeerMark::Behind { length: own.last() });
    }
    Ok(PeerMark::Same)
}

/// The entry of a number in the log of a peer, by a read of its disk.
pub(crate) fn read_at<D: Disk>(
    view: &PeerView,
    disks: &mut [D],
    place: usize,
    number: u64,
) -> Result<Option<Entry>, LogFault>
    requires within { place < length disks.old }
    requires stands { Stands D.tells view.now.log ((seen_at (map (λ disk. seen_as (D.size disk)
        (D.stands disk) (D.faults disk)) disks.old) place).size view.now.log.side)
        (seen_at (map (λ disk. seen_as (D.size disk) (D.stands disk) (D.faults disk)) disks.old)
        place).stands }
    ensures found { D.tells → (list : List (ℕ × Entry)) → HasView view.now
        (seen_at (map (λ disk. seen_as (D.size disk) (D.stands disk) (D.faults disk)) disks.old)
        place).stands.seen list → IfOk result (λ found. found ≡ numbered_entry list number) }
    ensures still { OnOk result (AreStill D.tells
        (map (λ disk. seen_as (D.size disk) (D.stands disk) (D.faults disk)) disks.old)
        (map (λ disk. seen_as (D.size disk) (D.stands disk) (D.faults disk)) disks.new)) }
    ensures lost { IfErr result (IsLostBy D.tells
        (map (λ disk. seen_as (D.size disk) (D.stands disk) (D.faults disk)) disks.old)
        (map (λ disk. seen_as (D.size disk) (D.stands disk) (D.faults disk)) disks.new) place) }
    ensures outside { D.tells → (list : List (ℕ × Entry)) → HasView view.now
        (seen_at (map (λ disk. seen_as (D.size disk) (D.stands disk) (D.faults disk)) disks.old)
        place).stands.seen list → IfErr result IsOutside }
    ensures rest { (peer : ℕ) → (peer ≡ place → ⊥) →
        seen_at (map (λ disk. seen_as (D.size disk) (D.stands disk) (D.faults disk)) disks.new)
        peer
        ≡ seen_at (map (λ disk. seen_as (D.size disk) (D.stands disk) (D.faults disk)) disks.old)
        peer }
    ensures count { length disks.new ≡ length disks.old }
{
    view.entry(&mut disks[place], number)
}

/// Whether the two are the same entry, or both are none.
fn are_same(one: &Option<Entry>, other: &Option<Entry>) -> bool
    ensures { IsTrue result ↔ (one.now ≡ other.now) }
{
    match (one, other) {
        (Some(one), Some(other)) => one.is_same(other),
        (None, None) => true,
        (Some(_), None) | (None, Some(_)) => false,
    }
}
