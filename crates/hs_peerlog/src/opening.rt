//! Opening the log of a disk, without a write.
ghost use Rattle.std.specs.Prelude.{◌≡◌, ◌≤◌, [], length, None, IfOk, IfErr, OnOk};
ghost use Rattle.hs_ports.specs.declared.disk.Side.{Side};
ghost use Rattle.hs_ports.specs.Disk.{settled};
ghost use Rattle.hs_side.specs.Current.{current, header_in};
ghost use Rattle.hs_side.specs.Standing.{Stands};
ghost use Rattle.hs_peerlog.specs.Caused.{IsCalm, IsCaused, IsOutside};
ghost use Rattle.hs_peerlog.specs.Heads.{head_found};
ghost use Rattle.hs_peerlog.specs.Images.{LeavesAll};
ghost use Rattle.hs_peerlog.specs.Opening.{refused_head, refusal_in, IsOpened, IsRefusal};

use crate::LogFault;
use crate::header::is_own;
use hs_entry::Rank;
use hs_limits::Shape;
use hs_ports::{Disk, Side, Watch};
use hs_side::{SideLog, later_side};
use std::alloc::Global;

/// Opens the current side of a disk: puts both sides on the medium, and reads the current one. It
/// writes nothing.
pub(crate) fn open_current<D: Disk>(
    alloc: Global,
    disk: &mut D,
    watch: &mut Watch,
    shape: Shape,
    peer: u8,
) -> Result<(SideLog, Rank), LogFault>
    ensures value { D.tells → IfOk result (λ x. IsOpened x.0 x.1 (D.stands disk.old).seen) }
    ensures stands { IfOk result (λ x. Stands D.tells x.0
        (D.size disk.new x.0.side) (D.stands disk.new)) }
    ensures rests { IfOk result (λ x. x.0.waiting ≡ None) }
    ensures counted { IfOk result (λ x. x.1.number ≡ length x.0.places) }
    ensures empty { IfOk result (λ x. x.0.head ≡ None → x.0.places ≡ []) }
    ensures head { D.tells → IfOk result (λ x.
        x.0.head ≡ head_found shape peer (D.stands disk.old).seen) }

    // Which fault it is, and that there is one where the disk is refused.
    ensures accepted { D.tells → OnOk result
        (refusal_in shape peer (D.stands disk.old).seen ≡ None) }
    ensures refused { D.tells → IfErr result (λ fault.
        IsRefusal fault (refusal_in shape peer (D.stands disk.old).seen)) }

    // It writes nothing: reads stay, and a crash leaves what it could leave before.
    ensures same { D.tells → (s : Side)
        → (D.stands disk.new).seen s ≡ (D.stands disk.old).seen s }
    ensures same_size { (s : Side) → D.size disk.new s ≡ D.size disk.old s }
    ensures durable { D.tells → OnOk result ((s : Side)
        → (D.stands disk.new).loose s ≡ settled ((D.stands disk.old).seen s)) }
    ensures any_moment { D.tells → (D.stands disk.old).last ≤ watch.old →
        LeavesAll watch.old watch.new (D.stands disk.old) (D.stands disk.new) }
    ensures ticks { watch.old ≤ watch.new }
    ensures calm { IsCalm (D.faults disk.old) (D.faults disk.new) result }
    ensures cause { IsCaused (D.faults disk.old) (D.faults disk.new) result }
{
    let side = match current_side(alloc, disk, watch) {
        Ok(side) => side,
        Err(fault) => return Err(fault),
    };
    match check_head(alloc, disk, side, shape, peer) {
        Ok(()) => {}
        Err(fault) => return Err(fault),
    }
    let opened = SideLog::open_ranked(alloc, disk, watch, side)?;
    Ok(opened)
}

/// The current side of a disk. It puts both on the medium.
pub(crate) fn current_side<D: Disk>(
    alloc: Global,
    disk: &mut D,
    watch: &mut Watch,
) -> Result<Side, LogFault>
    ensures value { D.tells → IfOk result (λ side. side ≡ current (D.stands disk.old).seen) }
    ensures refused { IfErr result IsOutside }

    ensures same { D.tells → (s : Side)
        → (D.stands disk.new).seen s ≡ (D.stands disk.old).seen s }
    ensures same_size { (s : Side) → D.size disk.new s ≡ D.size disk.old s }

    ensures durable { D.tells → OnOk result ((s : Side)
        → (D.stands disk.new).loose s ≡ settled ((D.stands disk.old).seen s)) }
    ensures any_moment { D.tells → (D.stands disk.old).last ≤ watch.old →
        LeavesAll watch.old watch.new (D.stands disk.old) (D.stands disk.new) }
    ensures ticks { watch.old ≤ watch.new }
    ensures calm { IsCalm (D.faults disk.old) (D.faults disk.new) result }
    ensures cause { IsCaused (D.faults disk.old) (D.faults disk.new) result }
{
    let zero = SideLog::glance(alloc, disk, watch, Side::Zero)?;
    let one = SideLog::glance(alloc, disk, watch, Side::One)?;
    Ok(later_side(zero, one))
}

/// Whether the head of a side is that of this peer's disk, or the side is blank.
fn check_head<D: Disk>(
    alloc: Global,
    disk: &mut D,
    side: Side,
    shape: Shape,
    peer: u8,
) -> Result<(), LogFault>
    ensures value { D.tells → OnOk result (
        refused_head shape peer (header_in ((D.stands disk.old).seen side)) ≡ None) }
    ensures refused { D.tells → IfErr result (λ fault.
        IsRefusal fault (refused_head shape peer (header_in ((D.stands disk.old).seen side)))) }

    ensures same { D.tells → D.stands disk.new ≡ D.stands disk.old }
    ensures same_size { (s : Side) → D.size disk.new s ≡ D.size disk.old s }
    ensures calm { IsCalm (D.faults disk.old) (D.faults disk.new) result }
    ensures cause { IsCaused (D.faults disk.old) (D.faults disk.new) result }
{
    let head = SideLog::head(alloc, disk, side)?;
    let Some(found) = head else {
        return Ok(());
    };
    if !is_own(shape, peer, found) {
        return Err(LogFault::WrongShape { found });
    }
    Ok(())
}
