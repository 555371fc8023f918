//! Giving a peer's emptied log the list of another peer, entry by entry.
ghost use Rattle.std.specs.Prelude.{◌≡◌, ◌≤◌, ◌<◌, ◌+◌, ℕ, List, None, false, length, map, true, IfErr, IfOk};
ghost use Rattle.hs_entry.specs.declared.entry.Entry.{Entry};
ghost use Rattle.hs_entry.specs.Reading.{IsReadable};
ghost use Rattle.hs_peerlog.specs.Images.{IsOne, LeavesEach};
ghost use Rattle.hs_peerlog.specs.Lists.{HasLog, with_waiting};
ghost use Rattle.hs_peerlog.specs.Past.{PastStays};
ghost use Rattle.hs_peerlog.specs.Views.{HasView};
ghost use Rattle.hs_ports.specs.Fault.{HasRisen};
ghost use Rattle.hs_scrub.specs.CopySteps.{Calls, HasAll, HasFronts, HasMore, IsOpen, Outcome};
ghost use Rattle.hs_scrub.specs.declared.fault.ScrubFault.TheVariants.{NoMemory};
ghost use Rattle.hs_side.specs.Standing.{Stands};
ghost use Rattle.hs_taking.specs.Disks.{seen_as, seen_at};

use crate::compare::read_at;
use crate::shard::lost_mark;
use crate::{PeerMark, ScrubFault};
use hs_entry::Entry;
use hs_peerlog::{LogFault, PeerLog, PeerView};
use hs_ports::{Disk, Watch};
use hs_readable::is_readable;

/// What came of giving a list.
#[derive(Clone, Copy, Debug)]
pub(crate) enum Given {
    /// All of it was given.
    Whole,
    /// The disk that gets it failed.
    Left,
    /// A read of the list was refused so.
    Ended { mark: PeerMark },
}

/// Puts an entry behind the others of a log, and seals it: whether that is done. Else the disk failed.
pub(crate) fn put_entry<D: Disk>(
    log: &mut PeerLog,
    disk: &mut D,
    watch: &mut Watch,
    number: u64,
    entry: &Entry,
) -> Result<bool, ScrubFault>
    requires opens { IsOpen D.tells
        (seen_as (D.size disk.old) (D.stands disk.old) (D.faults disk.old)) log.old }
    requires next { number ≡ log.old.rank.number + 1 }
    requires readable { IsReadable entry.now }
    ensures opens { IfOk result (λ put. put ≡ true → IsOpen D.tells
        (seen_as (D.size disk.new) (D.stands disk.new) (D.faults disk.new)) log.new) }
    ensures list { D.tells → (D.stands disk.old).last ≤ watch.old → (list : List (ℕ × Entry))
        → HasLog log.old (D.stands disk.old) list None → IfOk result (λ put. put ≡ true
        → HasLog log.new (D.stands disk.new) (with_waiting list entry.now) None) }
    ensures calm { IfOk result (λ put. put ≡ true → D.faults disk.new ≡ D.faults disk.old) }
    ensures risen { IfOk result (λ put. put ≡ false
        → HasRisen (D.faults disk.old) (D.faults disk.new)) }
    ensures memory { IfErr result (λ fault. fault ≡ NoMemory) }
    ensures any_moment { D.tells → (D.stands disk.old).last ≤ watch.old
        → (list : List (ℕ × Entry)) → HasLog log.old (D.stands disk.old) list None
        → LeavesEach watch.old watch.new (D.stands disk.old) (D.stands disk.new)
        (IsOne list (with_waiting list entry.now)) }
    ensures past { D.tells → (D.stands disk.old).last ≤ watch.old
        → PastStays watch.old watch.new (D.stands disk.old) (D.stands disk.new) }
    ensures counted { D.faults disk.old ≤ D.faults disk.new }
    ensures ticks { watch.old ≤ watch.new }
{
    match log.append(disk, watch, number, entry) {
        Ok(()) => {}
        Err(LogFault::Disk) => return Ok(false),
        Err(LogFault::NoMemory) => return Err(ScrubFault::NoMemory),
        Err(LogFault::NotALog { .. }) => unreachable!(),
        Err(LogFault::WrongShape { .. }) => unreachable!(),
    }
    match log.seal(disk, watch) {
        Ok(()) => Ok(true),
        Err(_) => Ok(false),
    }
}

/// Gives the entry of a number, behind the first `index` ones of the source, to a log that has these. An
/// entry that may not stand there counts as want of memory.
fn copy_entry<D: Disk>(
    source: &PeerView,
    log: &mut PeerLog,
    disks: &mut [D],
    watch: &mut Watch,
    from: usize,
    place: usize,
    index: u64,
    number: u64,
) -> Result<Given, ScrubFault>
    requires from { from < length disks.old }
    requires place { place < length disks.old }
    requires other { from ≡ place → ⊥ }
    requires source { Stands D.tells source.now.log ((seen_at (map (λ disk. seen_as (D.size disk)
        (D.stands disk) (D.faults disk)) disks.old)
        from).size source.now.log.side)
        (seen_at (map (λ disk. seen_as (D.size disk) (D.stands disk) (D.faults disk)) disks.old)
        from).stands }
    requires opens { IsOpen D.tells
        (seen_at (map (λ disk. seen_as (D.size disk) (D.stands disk) (D.faults disk)) disks.old)
        place) log.old }
    requires next { number ≡ index + 1 }
    ensures outcome { IfOk result (Outcome D.tells
        (HasView source.now (seen_at (map (λ disk. seen_as (D.size disk) (D.stands disk) (D.faults disk)) disks.old)
        from).stands.seen) from place
        (map (λ disk. seen_as (D.size disk) (D.stands disk) (D.faults disk)) disks.old)
        (map (λ disk. seen_as (D.size disk) (D.stands disk) (D.faults disk)) disks.new)
        (HasMore D.tells source.now watch.old
        (seen_at (map (λ disk. seen_as (D.size disk) (D.stands disk) (D.faults disk)) disks.old)
        from)
        (seen_at (map (λ disk. seen_as (D.size disk) (D.stands disk) (D.faults disk)) disks.old)
        place)
        (seen_at (map (λ disk. seen_as (D.size disk) (D.stands disk) (D.faults disk)) disks.new)
        place) log.old log.new index)) }
    ensures memory { IfErr result (λ fault. fault ≡ NoMemory) }
    ensures any_moment { HasFronts D.tells source.now watch.old watch.new
        (seen_at (map (λ disk. seen_as (D.size disk) (D.stands disk) (D.faults disk)) disks.old)
        from)
        (seen_at (map (λ disk. seen_as (D.size disk) (D.stands disk) (D.faults disk)) disks.old)
        place)
        (seen_at (map (λ disk. seen_as (D.size disk) (D.stands disk) (D.faults disk)) disks.new)
        place) log.old index }
    ensures calls { Calls D.tells from place watch.old watch.new
        (map (λ disk. seen_as (D.size disk) (D.stands disk) (D.faults disk)) disks.old)
        (map (λ disk. seen_as (D.size disk) (D.stands disk) (D.faults disk)) disks.new) }
    ensures count { length disks.new ≡ length disks.old }
{
    let entry = match read_at(source, disks, from, number) {
        Ok(Some(entry)) => entry,
        Ok(None) => return Err(ScrubFault::NoMemory),
        Err(fault) => match lost_mark(fault) {
            Some(mark) => return Ok(Given::Ended { mark }),
            None => return Err(ScrubFault::NoMemory),
        },
    };
    if log.last() != index || !is_readable(&entry) {
        return Err(ScrubFault::NoMemory);
    }
    match put_entry(log, &mut disks[place], watch, number, &entry) {
        Ok(true) => Ok(Given::Whole),
        Ok(false) => Ok(Given::Left),
        Err(fault) => Err(fault),
    }
}

/// Gives an empty log the list of the source, entry by entry.
pub(crate) fn copy_list<D: Disk>(
    source: &PeerView,
    log: PeerLog,
    disks: &mut [D],
    watch: &mut Watch,
    from: usize,
    place: usize,
) -> Result<Given, ScrubFault>
    requires from { from < length disks.old }
    requires place { place < length disks.old }
    requires other { from ≡ place → ⊥ }
    requires source { Stands D.tells source.now.log ((seen_at (map (λ disk. seen_as (D.size disk)
        (D.stands disk) (D.faults disk)) disks.old)
        from).size source.now.log.side)
        (seen_at (map (λ disk. seen_as (D.size disk) (D.stands disk) (D.faults disk)) disks.old)
        from).stands }
    requires opens { IsOpen D.tells
        (seen_at (map (λ disk. seen_as (D.size disk) (D.stands disk) (D.faults disk)) disks.old)
        place) log }
    ensures outcome { IfOk result (Outcome D.tells
        (HasView source.now (seen_at (map (λ disk. seen_as (D.size disk) (D.stands disk) (D.faults disk)) disks.old)
        from).stands.seen) from place
        (map (λ disk. seen_as (D.size disk) (D.stands disk) (D.faults disk)) disks.old)
        (map (λ disk. seen_as (D.size disk) (D.stands disk) (D.faults disk)) disks.new)
        (HasAll D.tells source.now watch.old
        (seen_at (map (λ disk. seen_as (D.size disk) (D.stands disk) (D.faults disk)) disks.old)
        from)
        (seen_at (map (λ disk. seen_as (D.size disk) (D.stands disk) (D.faults disk)) disks.old)
        place)
        (seen_at (map (λ disk. seen_as (D.size disk) (D.stands disk) (D.faults disk)) disks.new)
        place) log)) }
    ensures memory { IfErr result (λ fault. fault ≡ NoMemory) }
    ensures any_moment { HasFronts D.tells source.now watch.old watch.new
        (seen_at (map (λ disk. seen_as (D.size disk) (D.stands disk) (D.faults disk)) disks.old)
        from)
        (seen_at (map (λ disk. seen_as (D.size disk) (D.stands disk) (D.faults disk)) disks.old)
        place)
        (seen_at (map (λ disk. seen_as (D.size disk) (D.stands disk) (D.faults disk)) disks.new)
        place) log 0 }
    ensures calls { Calls D.tells from place watch.old watch.new
        (map (λ disk. seen_as (D.size disk) (D.stands disk) (D.faults disk)) disks.old)
        (map (λ disk. seen_as (D.size disk) (D.stands disk) (D.faults disk)) disks.new) }
    ensures count { length disks.new ≡ length disks.old }
{
    let mut log = log;
    for index in 0..source.last() {
        let number = index + 1;
        let given = match copy_entry(source, &mut log, disks, watch, from, place, index, number) {
            Ok(given) => given,
            Err(fault) => return Err(fault),
        };
        match given {
            Given::Whole => {}
            Given::Left => return Ok(Given::Left),
            Given::Ended { mark } => return Ok(Given::Ended { mark }),
        }
    }
    Ok(Given::Whole)
}
