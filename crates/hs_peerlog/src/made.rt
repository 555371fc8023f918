//! The log of a side that was opened.
ghost use Rattle.std.specs.Prelude.{◌≡◌, ◌≤◌, [], ℕ, List, None, Some, IsSome, IfOk, IfErr, unwrap_or};
ghost use Rattle.hs_entry.specs.declared.entry.Entry.{Entry};
ghost use Rattle.hs_side.specs.Standing.{Stands};
ghost use Rattle.hs_peerlog.specs.Caused.{IsCalm, IsCaused, IsOutside};
ghost use Rattle.hs_peerlog.specs.Images.{IsAlone};
ghost use Rattle.hs_peerlog.specs.Lists.{HasList};
ghost use Rattle.hs_peerlog.specs.Opening.{HasOpened};
ghost use Rattle.hs_peerlog.specs.Steps.{IsKeptOrMade, ShowsEach};

use crate::LogFault;
use hs_ports::{Disk, Watch};
use hs_side::{Header, SideLog};
use std::alloc::Global;

/// The log itself, or an empty one of this header where its side is blank. Of a side that is not
/// blank it does nothing.
pub(crate) fn make_log<D: Disk>(
    alloc: Global,
    log: SideLog,
    disk: &mut D,
    watch: &mut Watch,
    header: Header,
) -> Result<SideLog, LogFault>
    requires stands { Stands D.tells log (D.size disk.old log.side) (D.stands disk.old) }
    requires rests { log.waiting ≡ None }
    requires empty { log.head ≡ None → log.places ≡ [] }

    ensures stands { IfOk result (λ made.
        Stands D.tells made (D.size disk.new made.side) (D.stands disk.new)) }
    ensures head { IfOk result (λ made. made.head ≡ Some (unwrap_or log.head (header, 1))) }
    ensures rests { IfOk result (λ made. made.waiting ≡ None) }
    ensures places { IfOk result (λ made. made.places ≡ log.places) }
    ensures side { IfOk result (λ made. made.side ≡ log.side) }
    ensures list { D.tells → (list : List (ℕ × Entry))
        → HasOpened log ((D.stands disk.old).seen log.side) list
        → IfOk result (λ made. HasList made.places ((D.stands disk.new).seen log.side) list) }

    ensures refused { IfErr result IsOutside }
    ensures certain { IsSome log.head → IfErr result (λ _. ⊥) }

    ensures alone { D.tells → (D.stands disk.old).last ≤ watch.old
        → IsAlone log.side (D.stands disk.old)
        → IfOk result (λ _. IsAlone log.side (D.stands disk.new)) }
    ensures shown { D.tells → (D.stands disk.old).last ≤ watch.old
        → IsAlone log.side (D.stands disk.old)
        → ShowsEach watch.old watch.new (D.stands disk.old) (D.stands disk.new)
        (IsKeptOrMade ((D.stands disk.old).seen log.side) header) }
    ensures untouched { IsSome log.head → disk.new ≡ disk.old }
    ensures cost { IsSome log.head → watch.new ≡ watch.old }
    ensures ticks { watch.old ≤ watch.new }
    ensures calm { IsCalm (D.faults disk.old) (D.faults disk.new) result }
    ensures cause { IsCaused (D.faults disk.old) (D.faults disk.new) result }
{
    if log.generation().is_some() {
        return Ok(log);
    }
    let made = SideLog::format(alloc, disk, watch, log.side(), header, 1)?;
    Ok(made)
}
