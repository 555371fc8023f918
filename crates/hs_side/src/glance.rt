//! What the heads of a disk's sides tell.
ghost use Rattle.std.specs.Prelude.{◌≡◌, ◌≤◌, length, Some, None, IfOk, IfErr, OnOk, if◌then◌else◌};
ghost use Rattle.hs_ports.specs.declared.disk.Side.{Side};
ghost use Rattle.hs_ports.specs.Disk.{IsImage, Untouched, byte_at, other_side, settled};
ghost use Rattle.hs_ports.specs.Moments.{EachMoment};
ghost use Rattle.hs_side.specs.Caused.{IsCalm, IsCaused, IsOutside};
ghost use Rattle.hs_side.specs.Current.{generation_in, header_in, later_side, IsHeader};
ghost use Rattle.hs_side.specs.Reading.{generation_of, is_open};

use crate::device::settle;
use crate::format::is_open;
use crate::head::{generation_of, read_head};
use crate::reading::fill;
use crate::{Header, SideFault, SideLog};
use hs_ports::{Disk, Side, Watch};
use std::alloc::Global;

impl SideLog {
    /// Puts a side on the medium, and tells its generation: None exactly where it is blank. What
    /// else the head says is not looked at. It writes nothing.
    pub fn glance<D: Disk>(
        alloc: Global,
        disk: &mut D,
        watch: &mut Watch,
        side: Side,
    ) -> Result<Option<u64>, SideFault>
        ensures value { D.tells → IfOk result (λ generation.
            generation ≡ generation_in ((D.stands disk.old).seen side)) }
        ensures durable { D.tells → OnOk result ((D.stands disk.new).loose side
            ≡ settled ((D.stands disk.old).seen side)) }

        ensures refused { IfErr result IsOutside }

        // It writes nothing: what a read gives stays, and a crash leaves what it could leave before.
        ensures same { D.tells → (D.stands disk.new).seen side ≡ (D.stands disk.old).seen side }
        ensures same_size { (s : Side) → D.size disk.new s ≡ D.size disk.old s }
        ensures other { D.tells →
            Untouched (other_side side) (D.stands disk.old) (D.stands disk.new) }

        ensures any_moment { D.tells → (D.stands disk.old).last ≤ watch.old →
            EachMoment watch.old watch.new side (D.stands disk.old) (D.stands disk.new)
            (IsImage ((D.stands disk.old).loose side)) }
        ensures ticks { watch.old ≤ watch.new }
        ensures calm { IsCalm (D.faults disk.old) (D.faults disk.new) result }
        ensures cause { IsCaused (D.faults disk.old) (D.faults disk.new) result }
    {
        settle(disk, watch, side)?;
        read_generation(alloc, disk, side)
    }

    /// The header of a side: None where it is blank. `NotALog` comes where the first 17 bytes are
    /// no head, with the first place that is wrong.
    pub fn head<D: Disk>(
        alloc: Global,
        disk: &mut D,
        side: Side,
    ) -> Result<Option<Header>, SideFault>
        ensures exact { D.tells → IsHeader result (header_in ((D.stands disk.old).seen side)) }

        ensures same { D.tells → D.stands disk.new ≡ D.stands disk.old }
        ensures same_size { (s : Side) → D.size disk.new s ≡ D.size disk.old s }

        ensures calm { IsCalm (D.faults disk.old) (D.faults disk.new) result }
        ensures cause { IsCaused (D.faults disk.old) (D.faults disk.new) result }
    {
        let size = disk.len(side)?;
        let mut held = Vec::new(alloc);
        match read_head(disk, side, size, &mut held) {
            Ok(Some((header, _))) => Ok(Some(header)),
            Ok(None) => Ok(None),
            Err(fault) => Err(fault),
        }
    }
}

/// The side that is current, by the generations of both: None where a side is blank.
pub fn later_side(zero: Option<u64>, one: Option<u64>) -> Side
    ensures { result ≡ later_side zero one }
{
    match (zero, one) {
        (_, None) => Side::Zero,
        (None, Some(_)) => Side::One,
        (Some(zero), Some(one)) => { if zero < one { Side::One } else { Side::Zero } }
    }
}

/// The generation of a side, all of which is on the medium.
fn read_generation<D: Disk>(
    alloc: Global,
    disk: &mut D,
    side: Side,
) -> Result<Option<u64>, SideFault>
    ensures value { D.tells → IfOk result (λ generation.
        generation ≡ generation_in ((D.stands disk.old).seen side)) }
    ensures refused { IfErr result IsOutside }

    ensures same { D.tells → D.stands disk.new ≡ D.stands disk.old }
    ensures same_size { (s : Side) → D.size disk.new s ≡ D.size disk.old s }
    ensures calm { IsCalm (D.faults disk.old) (D.faults disk.new) result }
    ensures cause { IsCaused (D.faults disk.old) (D.faults disk.new) result }
{
    let size = disk.len(side)?;
    if size < 18 {
        return Ok(None);
    }
    let mut held = Vec::new(alloc);
    fill(disk, side, 0, 17, &mut held)?;
    Ok(generation_in(&held))
}

/// The generation in the first 17 bytes of a side: None where byte 0 is no open gate.
fn generation_in(bytes: &[u8]) -> Option<u64>
    requires { length bytes.now ≡ 17 }
    ensures { result ≡ (if is_open (byte_at bytes.now 0)
        then Some (generation_of bytes.now) else None) }
{
    if is_open(bytes[0]) {
        return Some(generation_of(bytes));
    }
    None
}
