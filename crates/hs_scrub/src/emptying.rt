//! Emptying the disk of a peer that is to get another list.
ghost use Rattle.std.specs.Prelude.{◌≡◌, ◌≤◌, ℕ, List, [], Option, None, IsSome, MatchOption, IfErr, IfOk, IfSome};
ghost use Rattle.hs_entry.specs.declared.entry.Entry.{Entry};
ghost use Rattle.hs_peerlog.specs.Images.{IsOne, LeavesEach, LeavesOnly};
ghost use Rattle.hs_peerlog.specs.Lists.{HasLog};
ghost use Rattle.hs_peerlog.specs.Past.{PastStays};
ghost use Rattle.hs_scrub.specs.Copied.{IsLeft};
ghost use Rattle.hs_scrub.specs.CopySteps.{IsEmptied, IsOpen};
ghost use Rattle.hs_scrub.specs.declared.fault.ScrubFault.TheVariants.{NoMemory};
ghost use Rattle.hs_ports.specs.Fault.{HasRisen};
ghost use Rattle.hs_taking.specs.Disks.{seen_as};

use crate::ScrubFault;
use hs_limits::Shape;
use hs_peerlog::{LogFault, PeerLog};
use hs_ports::{Disk, Watch};
use std::alloc::Global;

/// Makes the log of a peer's disk an empty one, also where the disk is no log. None where the disk
/// failed, or is of another store: it is left then.
pub(crate) fn empty_disk<D: Disk>(
    alloc: Global,
    disk: &mut D,
    watch: &mut Watch,
    shape: Shape,
    peer: u8,
) -> Result<Option<PeerLog>, ScrubFault>
    ensures emptied { IfOk result (λ log. MatchOption log (IsLeft D.tells shape peer
        (seen_as (D.size disk.old) (D.stands disk.old) (D.faults disk.old))
        (seen_as (D.size disk.new) (D.stands disk.new) (D.faults disk.new)))
        (IsEmptied D.tells watch.old
        (seen_as (D.size disk.old) (D.stands disk.old) (D.faults disk.old))
        (seen_as (D.size disk.new) (D.stands disk.new) (D.faults disk.new)))) }
    ensures memory { IfErr result (λ fault. fault ≡ NoMemory) }
    ensures any_moment { D.tells → (D.stands disk.old).last ≤ watch.old
        → (list : List (ℕ × Entry)) → LeavesOnly (D.stands disk.old) list
        → LeavesEach watch.old watch.new (D.stands disk.old) (D.stands disk.new) (IsOne list []) }
    ensures past { D.tells → (D.stands disk.old).last ≤ watch.old
        → PastStays watch.old watch.new (D.stands disk.old) (D.stands disk.new) }
    ensures counted { D.faults disk.old ≤ D.faults disk.new }
    ensures ticks { watch.old ≤ watch.new }
{
    match PeerLog::recover(alloc, disk, watch, shape, peer) {
        Ok(log) => reset_log(log, disk, watch),
        Err(LogFault::NotALog { .. }) => clear_disk(alloc, disk, watch, shape, peer),
        Err(LogFault::WrongShape { .. }) => Ok(None),
        Err(LogFault::Disk) => Ok(None),
        Err(LogFault::NoMemory) => Err(ScrubFault::NoMemory),
    }
}

/// Empties a log. None where the disk failed.
fn reset_log<D: Disk>(
    log: PeerLog,
    disk: &mut D,
    watch: &mut Watch,
) -> Result<Option<PeerLog>, ScrubFault>
    requires { IsOpen D.tells (seen_as (D.size disk.old) (D.stands disk.old) (D.faults disk.old))
        log }
    ensures opens { IfOk result (λ emptied. IfSome emptied (IsOpen D.tells
        (seen_as (D.size disk.new) (D.stands disk.new) (D.faults disk.new)))) }
    ensures list { D.tells → (D.stands disk.old).last ≤ watch.old → (list : List (ℕ × Entry))
        → HasLog log (D.stands disk.old) list None → IfOk result (λ emptied. IfSome emptied
        (λ own. HasLog own (D.stands disk.new) [] None)) }
    ensures calm { IfOk result (λ emptied. IsSome emptied
        → D.faults disk.new ≡ D.faults disk.old) }
    ensures risen { IfOk result (λ emptied. emptied ≡ None
        → HasRisen (D.faults disk.old) (D.faults disk.new)) }
    ensures memory { IfErr result (λ fault. fault ≡ NoMemory) }
    ensures any_moment { D.tells → (D.stands disk.old).last ≤ watch.old
        → (list : List (ℕ × Entry)) → HasLog log (D.stands disk.old) list None
        → LeavesEach watch.old watch.new (D.stands disk.old) (D.stands disk.new) (IsOne list []) }
    ensures past { D.tells → (D.stands disk.old).last ≤ watch.old
        → PastStays watch.old watch.new (D.stands disk.old) (D.stands disk.new) }
    ensures counted { D.faults disk.old ≤ D.faults disk.new }
    ensures ticks { watch.old ≤ watch.new }
{
    let mut log = log;
    match log.reset(disk, watch) {
        Ok(()) => Ok(Some(log)),
        Err(LogFault::Disk) => Ok(None),
        Err(LogFault::NoMemory) => Err(ScrubFault::NoMemory),
        Err(LogFault::NotALog { .. }) => unreachable!(),
        Err(LogFault::WrongShape { .. }) => unreachable!(),
    }
}

/// Makes an empty log of a disk that is none. None where the disk failed.
fn clear_disk<D: Disk>(
    alloc: Global,
    disk: &mut D,
    watch: &mut Watch,
    shape: Shape,
    peer: u8,
) -> Result<Option<PeerLog>, ScrubFault>
    ensures opens { IfOk result (λ emptied. IfSome emptied (IsOpen D.tells
        (seen_as (D.size disk.new) (D.stands disk.new) (D.faults disk.new)))) }
    ensures list { D.tells → (D.stands disk.old).last ≤ watch.old → IfOk result (λ emptied.
        IfSome emptied (λ own. HasLog own (D.stands disk.new) [] None)) }
    ensures calm { IfOk result (λ emptied. IsSome emptied
        → D.faults disk.new ≡ D.faults disk.old) }
    ensures risen { IfOk result (λ emptied. emptied ≡ None
        → HasRisen (D.faults disk.old) (D.faults disk.new)) }
    ensures memory { IfErr result (λ fault. fault ≡ NoMemory) }
    ensures past { D.tells → (D.stands disk.old).last ≤ watch.old
        → PastStays watch.old watch.new (D.stands disk.old) (D.stands disk.new) }
    ensures counted { D.faults disk.old ≤ D.faults disk.new }
    ensures ticks { watch.old ≤ watch.new }
{
    match PeerLog::clear(alloc, disk, watch, shape, peer) {
        Ok(log) => Ok(Some(log)),
        Err(LogFault::Disk) => Ok(None),
        Err(LogFault::NoMemory) => Err(ScrubFault::NoMemory),
        Err(LogFault::NotALog { .. }) => unreachable!(),
        Err(LogFault::WrongShape { .. }) => unreachable!(),
    }
}
