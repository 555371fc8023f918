//! The steps that empty a log.
ghost use Rattle.std.specs.Prelude.{◌≡◌, ◌≤◌, [], None, Some, false, OnOk, IfOk, IfErr};
ghost use Rattle.hs_ports.specs.Disk.{Untouched, other_side};
ghost use Rattle.hs_side.specs.Giving.{GivesEmpty, IsBlankEverywhere};
ghost use Rattle.hs_side.specs.Reading.{is_blank};
ghost use Rattle.hs_side.specs.Standing.{Stands};
ghost use Rattle.hs_peerlog.specs.Caused.{IsCalm, IsCaused, IsOutside};
ghost use Rattle.hs_peerlog.specs.Images.{IsSole, LeavesOnly};
ghost use Rattle.hs_peerlog.specs.Lists.{HasList, IsBlankBeside};
ghost use Rattle.hs_peerlog.specs.Past.{PastStays};
ghost use Rattle.hs_peerlog.specs.Steps.{CouldShow, CouldShowOrBlank, ShowsEach};

use crate::LogFault;
use crate::close::close;
use hs_ports::{Disk, Side, Watch};
use hs_side::{Header, SideLog};
use std::alloc::Global;

/// The other side.
fn other_side(side: Side) -> Side
    ensures { result ≡ other_side side }
{
    match side {
        Side::Zero => Side::One,
        Side::One => Side::Zero,
    }
}

/// Closes the side beside this one: it is blank then.
pub(crate) fn close_other<D: Disk>(
    alloc: Global,
    disk: &mut D,
    watch: &mut Watch,
    side: Side,
) -> Result<(), LogFault>
    ensures gone { D.tells → IsBlankBeside side (D.stands disk.old)
        → OnOk result (IsBlankEverywhere ((D.stands disk.new).loose (other_side side))) }
    ensures refused { IfErr result IsOutside }
    ensures other { D.tells → Untouched side (D.stands disk.old) (D.stands disk.new) }

    ensures shown { D.tells → (D.stands disk.old).last ≤ watch.old
        → IsSole side (D.stands disk.old)
        → ShowsEach watch.old watch.new (D.stands disk.old) (D.stands disk.new)
        (CouldShow (D.stands disk.old)) }
    ensures past { D.tells → (D.stands disk.old).last ≤ watch.old
        → PastStays watch.old watch.new (D.stands disk.old) (D.stands disk.new) }
    ensures ticks { watch.old ≤ watch.new }
    ensures calm { IsCalm (D.faults disk.old) (D.faults disk.new) result }
    ensures cause { IsCaused (D.faults disk.old) (D.faults disk.new) result }
{
    close(alloc, disk, watch, other_side(side))
}

/// Closes this side, beside a blank one.
pub(crate) fn close_own<D: Disk>(
    alloc: Global,
    disk: &mut D,
    watch: &mut Watch,
    side: Side,
) -> Result<(), LogFault>
    ensures closed { D.tells → is_blank ((D.stands disk.old).seen side) ≡ false
        → OnOk result (IsBlankEverywhere ((D.stands disk.new).loose side)) }
    ensures gone { D.tells → IsBlankBeside (other_side side) (D.stands disk.old)
        → OnOk result (IsBlankEverywhere ((D.stands disk.new).loose side)) }
    ensures refused { IfErr result IsOutside }
    ensures other { D.tells →
        Untouched (other_side side) (D.stands disk.old) (D.stands disk.new) }

    ensures shown { D.tells → (D.stands disk.old).last ≤ watch.old
        → IsBlankEverywhere ((D.stands disk.old).loose (other_side side))
        → ShowsEach watch.old watch.new (D.stands disk.old) (D.stands disk.new)
        (CouldShowOrBlank (D.stands disk.old)) }
    ensures past { D.tells → (D.stands disk.old).last ≤ watch.old
        → PastStays watch.old watch.new (D.stands disk.old) (D.stands disk.new) }
    ensures ticks { watch.old ≤ watch.new }
    ensures calm { IsCalm (D.faults disk.old) (D.faults disk.new) result }
    ensures cause { IsCaused (D.faults disk.old) (D.faults disk.new) result }
{
    close(alloc, disk, watch, side)
}

/// Writes an empty log on this side, beside a blank one.
pub(crate) fn write_empty<D: Disk>(
    alloc: Global,
    disk: &mut D,
    watch: &mut Watch,
    side: Side,
    header: Header,
    generation: u64,
) -> Result<SideLog, LogFault>
    requires { D.tells → IsBlankEverywhere ((D.stands disk.old).loose side) }

    ensures value { IfOk result (λ log. log ≡ record {
      side = side;
      head = Some (header, generation);
      places = [];
      end = 17;
      waiting = None;
    }) }
    ensures stands { IfOk result (λ log. Stands D.tells log
        (D.size disk.new log.side) (D.stands disk.new)) }
    ensures list { D.tells → IfOk result (λ log.
        HasList log.places ((D.stands disk.new).seen log.side) []) }
    ensures sole { D.tells → (D.stands disk.old).last ≤ watch.old
        → IsBlankEverywhere ((D.stands disk.old).loose (other_side side))
        → IfOk result (λ log. IsSole log.side (D.stands disk.new)) }
    ensures leaves { D.tells → (D.stands disk.old).last ≤ watch.old
        → IsBlankEverywhere ((D.stands disk.old).loose (other_side side))
        → OnOk result (LeavesOnly (D.stands disk.new) []) }
    ensures beside { D.tells → (D.stands disk.old).last ≤ watch.old
        → IsBlankEverywhere ((D.stands disk.old).loose (other_side side))
        → IfOk result (λ log. IsBlankBeside log.side (D.stands disk.new)) }

    ensures refused { IfErr result IsOutside }

    ensures shown { D.tells → (D.stands disk.old).last ≤ watch.old
        → IsBlankEverywhere ((D.stands disk.old).loose (other_side side))
        → ShowsEach watch.old watch.new (D.stands disk.old) (D.stands disk.new)
        (GivesEmpty header generation) }
    ensures past { D.tells → (D.stands disk.old).last ≤ watch.old
        → PastStays watch.old watch.new (D.stands disk.old) (D.stands disk.new) }
    ensures ticks { watch.old ≤ watch.new }
    ensures calm { IsCalm (D.faults disk.old) (D.faults disk.new) result }
    ensures cause { IsCaused (D.faults disk.old) (D.faults disk.new) result }
{
    let log = SideLog::format(alloc, disk, watch, side, header, generation)?;
    Ok(log)
}
