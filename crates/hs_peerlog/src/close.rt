//! Closing the gate at byte 0 of a side.
ghost use Rattle.std.specs.Prelude.{◌≡◌, ◌≤◌, ◌<◌, ◌+◌, ◌∷◌, [], true, false, length, max, IfOk, OnOk, IfErr};
ghost use Rattle.hs_ports.specs.declared.disk.Side.{Side};
ghost use Rattle.hs_ports.specs.Disk.{IsImage, Untouched, byte_at, other_side, overwritten, settled, written};
ghost use Rattle.hs_ports.specs.Fault.{IsCausedBy};
ghost use Rattle.hs_ports.specs.Moments.{EachMoment};
ghost use Rattle.hs_side.specs.Giving.{IsBlankEverywhere};
ghost use Rattle.hs_side.specs.Reading.{is_blank, is_open};
ghost use Rattle.hs_peerlog.specs.Caused.{IsCalm, IsCaused, IsOutside};
ghost use Rattle.hs_peerlog.specs.Images.{GivesClosed};

use crate::LogFault;
use hs_ports::{Disk, PortFault, Side, Watch};
use std::alloc::Global;

/// Closes byte 0 of a side that is not blank, and puts that on the medium: then the side is blank,
/// whatever a crash leaves. A blank side is left as it is, without a write or a sync.
pub(crate) fn close<D: Disk>(
    alloc: Global,
    disk: &mut D,
    watch: &mut Watch,
    side: Side,
) -> Result<(), LogFault>
    ensures left { D.tells → is_blank ((D.stands disk.old).seen side) ≡ true
        → D.stands disk.new ≡ D.stands disk.old }
    ensures closed { D.tells → is_blank ((D.stands disk.old).seen side) ≡ false
        → OnOk result (IsBlankEverywhere ((D.stands disk.new).loose side)) }
    ensures blank { D.tells → OnOk result (is_blank ((D.stands disk.new).seen side) ≡ true) }
    ensures refused { IfErr result IsOutside }
    ensures other { D.tells →
        Untouched (other_side side) (D.stands disk.old) (D.stands disk.new) }

    ensures any_moment { D.tells → (D.stands disk.old).last ≤ watch.old →
        EachMoment watch.old watch.new side (D.stands disk.old) (D.stands disk.new)
        (GivesClosed ((D.stands disk.old).loose side)) }
    ensures ticks { watch.old ≤ watch.new }
    ensures calm { IsCalm (D.faults disk.old) (D.faults disk.new) result }
    ensures cause { IsCaused (D.faults disk.old) (D.faults disk.new) result }
{
    let begun = is_begun(alloc, disk, side)?;
    if !begun {
        return Ok(());
    }
    write_gate(disk, watch, side)?;
    Ok(())
}

/// Whether a side is not blank.
fn is_begun<D: Disk>(alloc: Global, disk: &mut D, side: Side) -> Result<bool, PortFault>
    ensures begun { D.tells → IfOk result (λ begun. begun ≡ true
        → is_blank ((D.stands disk.old).seen side) ≡ false) }
    ensures blank { D.tells → IfOk result (λ begun. begun ≡ false
        → is_blank ((D.stands disk.old).seen side) ≡ true) }

    ensures same_size { (s : Side) → D.size disk.new s ≡ D.size disk.old s }
    ensures same { D.tells → D.stands disk.new ≡ D.stands disk.old }
    ensures calm { OnOk result (D.faults disk.new ≡ D.faults disk.old) }
    ensures cause { IsCausedBy PortFault.Failed (D.faults disk.old) (D.faults disk.new) result }
{
    let size = disk.len(side)?;
    if size < 18 {
        return Ok(false);
    }
    let mut held = Vec::new(alloc);
    disk.read(side, 0, 1, &mut held)?;
    Ok(held[0] == 0xa5)
}

/// Makes byte 0 a closed gate, and puts the side on the medium.
fn write_gate<D: Disk>(disk: &mut D, watch: &mut Watch, side: Side) -> Result<(), PortFault>
    ensures seen { D.tells → OnOk result ((D.stands disk.new).seen side
        ≡ overwritten 0 (0 ∷ []) ((D.stands disk.old).seen side)) }
    ensures settled { D.tells → OnOk result ((D.stands disk.new).loose side
        ≡ settled (overwritten 0 (0 ∷ []) ((D.stands disk.old).seen side))) }
    ensures other { D.tells →
        Untouched (other_side side) (D.stands disk.old) (D.stands disk.new) }

    ensures any_moment { D.tells → (D.stands disk.old).last ≤ watch.old →
        EachMoment watch.old watch.new side (D.stands disk.old) (D.stands disk.new)
        (IsImage (written 0 1 ((D.stands disk.old).loose side))) }
    ensures not_memory { IfErr result (λ fault. fault ≡ PortFault.Failed) }
    ensures calm { OnOk result (D.faults disk.new ≡ D.faults disk.old) }
    ensures ticks { watch.old ≤ watch.new }
    ensures cause { IsCausedBy PortFault.Failed (D.faults disk.old) (D.faults disk.new) result }
{
    put(disk, watch, side)?;
    settle(disk, watch, side)
}

/// Makes byte 0 a closed gate, without a sync.
fn put<D: Disk>(disk: &mut D, watch: &mut Watch, side: Side) -> Result<(), PortFault>
    ensures seen { D.tells → OnOk result ((D.stands disk.new).seen side
        ≡ overwritten 0 (0 ∷ []) ((D.stands disk.old).seen side)) }
    ensures loose { D.tells → (D.stands disk.new).loose side
        ≡ written 0 1 ((D.stands disk.old).loose side) }
    ensures other { D.tells →
        Untouched (other_side side) (D.stands disk.old) (D.stands disk.new) }

    ensures any_moment { D.tells → (D.stands disk.old).last ≤ watch.old →
        EachMoment watch.old watch.new side (D.stands disk.old) (D.stands disk.new)
        (IsImage (written 0 1 ((D.stands disk.old).loose side))) }
    ensures not_memory { IfErr result (λ fault. fault ≡ PortFault.Failed) }
    ensures calm { OnOk result (D.faults disk.new ≡ D.faults disk.old) }
    ensures ticks { watch.old ≤ watch.new }
    ensures cause { IsCausedBy PortFault.Failed (D.faults disk.old) (D.faults disk.new) result }
{
    disk.write_at(watch, side, 0, &[0])
}

/// Puts a side on the medium.
fn settle<D: Disk>(disk: &mut D, watch: &mut Watch, side: Side) -> Result<(), PortFault>
    ensures settled { D.tells → OnOk result (
        (D.stands disk.new).loose side ≡ settled ((D.stands disk.old).seen side)) }
    ensures seen { D.tells → (D.stands disk.new).seen side ≡ (D.stands disk.old).seen side }
    ensures other { D.tells →
        Untouched (other_side side) (D.stands disk.old) (D.stands disk.new) }

    ensures any_moment { D.tells → (D.stands disk.old).last ≤ watch.old →
        EachMoment watch.old watch.new side (D.stands disk.old) (D.stands disk.new)
        (IsImage ((D.stands disk.old).loose side)) }
    ensures not_memory { IfErr result (λ fault. fault ≡ PortFault.Failed) }
    ensures calm { OnOk result (D.faults disk.new ≡ D.faults disk.old) }
    ensures ticks { watch.old ≤ watch.new }
    ensures cause { IsCausedBy PortFault.Failed (D.faults disk.old) (D.faults disk.new) result }
{
    disk.sync(watch, side)
}
