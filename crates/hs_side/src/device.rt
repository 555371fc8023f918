//! Calls on a side of a disk, each with its sync where it has one.
ghost use Rattle.hs_ports.specs.declared.disk.Side.{Side};
ghost use Rattle.std.specs.Prelude.{◌≡◌, ◌<◌, ◌≤◌, ◌+◌, ℕ, length, max, take, OnOk, OnErr, IfErr};
ghost use Rattle.hs_ports.specs.Fault.{IsCausedBy};
ghost use Rattle.hs_ports.specs.Disk.{IsImage, Untouched, other_side, overwritten, written, shortened, settled};
ghost use Rattle.hs_ports.specs.Watch.{Ticks, next_moment};
ghost use Rattle.hs_ports.specs.Moments.{EachMoment};

use hs_ports::{Disk, PortFault, Side, Watch};

/// Puts a side on the medium.
pub(crate) fn settle<D: Disk>(disk: &mut D, watch: &mut Watch, side: Side) -> Result<(), PortFault>
    ensures settled { D.tells → OnOk result (
        (D.stands disk.new).loose side ≡ settled ((D.stands disk.old).seen side)) }
    ensures seen { D.tells → (D.stands disk.new).seen side ≡ (D.stands disk.old).seen side }
    ensures same_size { (s : Side) → D.size disk.new s ≡ D.size disk.old s }
    ensures other { D.tells →
        Untouched (other_side side) (D.stands disk.old) (D.stands disk.new) }

    ensures any_moment { D.tells → (D.stands disk.old).last ≤ watch.old →
        EachMoment watch.old watch.new side (D.stands disk.old) (D.stands disk.new)
        (IsImage ((D.stands disk.old).loose side)) }
    ensures not_memory { IfErr result (λ fault. fault ≡ PortFault.Failed) }
    ensures calm { OnOk result (D.faults disk.new ≡ D.faults disk.old) }
    ensures cost { OnOk result (watch.new ≡ next_moment watch.old) }
    ensures ticks { watch.old ≤ watch.new }
    ensures cause { IsCausedBy PortFault.Failed (D.faults disk.old) (D.faults disk.new) result }
{
    disk.sync(watch, side)
}

/// Writes, without a sync.
pub(crate) fn put<D: Disk>(
    disk: &mut D,
    watch: &mut Watch,
    side: Side,
    at: u64,
    bytes: &[u8],
) -> Result<(), PortFault>
    requires { at ≤ D.size disk.old side }

    ensures seen { D.tells → OnOk result ((D.stands disk.new).seen side
        ≡ overwritten at bytes.now ((D.stands disk.old).seen side)) }
    ensures loose { D.tells → (D.stands disk.new).loose side
        ≡ written at (length bytes.now) ((D.stands disk.old).loose side) }
    ensures size { OnOk result (D.size disk.new side
        ≡ max (D.size disk.old side) (at + length bytes.now)) }
    ensures other { D.size disk.new (other_side side) ≡ D.size disk.old (other_side side) }

    ensures any_moment { D.tells → (D.stands disk.old).last ≤ watch.old →
        EachMoment watch.old watch.new side (D.stands disk.old) (D.stands disk.new)
        (IsImage (written at (length bytes.now) ((D.stands disk.old).loose side))) }
    ensures not_memory { IfErr result (λ fault. fault ≡ PortFault.Failed) }
    ensures calm { OnOk result (D.faults disk.new ≡ D.faults disk.old) }
    ensures cost { OnOk result (watch.new ≡ next_moment watch.old) }
    ensures ticks { watch.old ≤ watch.new }
    ensures cause { IsCausedBy PortFault.Failed (D.faults disk.old) (D.faults disk.new) result }
{
    disk.write_at(watch, side, at, bytes)
}

/// Writes, and puts the side on the medium.
pub(crate) fn put_and_settle<D: Disk>(
    disk: &mut D,
    watch: &mut Watch,
    side: Side,
    at: u64,
    bytes: &[u8],
) -> Result<(), PortFault>
    requires { at ≤ D.size disk.old side }

    ensures seen { D.tells → OnOk result ((D.stands disk.new).seen side
        ≡ overwritten at bytes.now ((D.stands disk.old).seen side)) }
    ensures settled { D.tells → OnOk result ((D.stands disk.new).loose side
        ≡ settled (overwritten at bytes.now ((D.stands disk.old).seen side))) }
    ensures size { OnOk result (D.size disk.new side
        ≡ max (D.size disk.old side) (at + length bytes.now)) }
    ensures other { D.size disk.new (other_side side) ≡ D.size disk.old (other_side side) }

    ensures any_moment { D.tells → (D.stands disk.old).last ≤ watch.old →
        EachMoment watch.old watch.new side (D.stands disk.old) (D.stands disk.new)
        (IsImage (written at (length bytes.now) ((D.stands disk.old).loose side))) }
    ensures not_memory { IfErr result (λ fault. fault ≡ PortFault.Failed) }
    ensures calm { OnOk result (D.faults disk.new ≡ D.faults disk.old) }
    ensures cost { OnOk result (watch.new ≡ next_moment (next_moment watch.old)) }
    ensures ticks { watch.old ≤ watch.new }
    ensures cause { IsCausedBy PortFault.Failed (D.faults disk.old) (D.faults disk.new) result }
{
    put(disk, watch, side, at, bytes)?;
    settle(disk, watch, side)
}

/// Cuts, and puts the side on the medium.
pub(crate) fn cut_and_settle<D: Disk>(
    disk: &mut D,
    watch: &mut Watch,
    side: Side,
    len: u64,
) -> Result<(), PortFault>
    requires { len ≤ D.size disk.old side }

    ensures seen { D.tells → OnOk result ((D.stands disk.new).seen side
        ≡ take len ((D.stands disk.old).seen side)) }
    ensures settled { D.tells → OnOk result ((D.stands disk.new).loose side
        ≡ settled (take len ((D.stands disk.old).seen side))) }
    ensures size { OnOk result (D.size disk.new side ≡ len) }
    ensures other { D.size disk.new (other_side side) ≡ D.size disk.old (other_side side) }

    ensures any_moment { D.tells → (D.stands disk.old).last ≤ watch.old →
        EachMoment watch.old watch.new side (D.stands disk.old) (D.stands disk.new)
        (IsImage (shortened len ((D.stands disk.old).loose side))) }
    ensures not_memory { IfErr result (λ fault. fault ≡ PortFault.Failed) }
    ensures calm { OnOk result (D.faults disk.new ≡ D.faults disk.old) }
    ensures ticks { watch.old ≤ watch.new }
    ensures cause { IsCausedBy PortFault.Failed (D.faults disk.old) (D.faults disk.new) result }
{
    disk.cut(watch, side, len)?;
    settle(disk, watch, side)
}
