//! Writing an empty log on a blank side.
ghost use Rattle.hs_ports.specs.declared.disk.Side.{Side};
ghost use Rattle.std.specs.Prelude.{◌≡◌, ◌<◌, ◌≤◌, ◌+◌, ◌^◌, [], ◌∷◌, ◌++◌, ℕ, true, false, length, take, drop, None, Some, IsTrue, IfOk, OnOk, IfErr};
ghost use Rattle.hs_ports.specs.Disk.{byte_at, other_side, settled};
ghost use Rattle.hs_ports.specs.Fault.{IsCausedBy};
ghost use Rattle.hs_ports.specs.Moments.{EachMoment};
ghost use Rattle.hs_side.specs.Caused.{IsCalm, IsCaused, IsOutside};
ghost use Rattle.hs_side.specs.Giving.{GivesEmpty, IsBlankEverywhere};
ghost use Rattle.hs_side.specs.Reading.{is_open};
ghost use Rattle.hs_side.specs.Spelling.{empty_back, spelled};
ghost use Rattle.hs_side.specs.Standing.{Stands};

use crate::device::{cut_and_settle, put_and_settle};
use crate::reading::gate_at;
use crate::{Header, SideFault, SideLog};
use hs_ports::{Disk, PortFault, Side, Watch};
use std::alloc::Global;

impl SideLog {
    /// Writes an empty log on a blank side, in an order in which no crash leaves anything but a
    /// blank side or that log: byte 0 is made a closed gate, the side is cut to it, the rest is
    /// written behind it, and then byte 0 is opened, each with its sync. After a fault the side
    /// must be opened again.
    pub fn format<D: Disk>(
        alloc: Global,
        disk: &mut D,
        watch: &mut Watch,
        side: Side,
        header: Header,
        generation: u64,
    ) -> Result<SideLog, SideFault>
        requires { D.tells → IsBlankEverywhere ((D.stands disk.old).loose side) }

        ensures value { IfOk result (λ log. log ≡ record {
          side = side;
          head = Some (header, generation);
          places = [];
          end = 17;
          waiting = None;
        }) }
        ensures stands { IfOk result (λ log.
            Stands D.tells log (D.size disk.new side) (D.stands disk.new)) }
        ensures written { D.tells → OnOk result ((D.stands disk.new).seen side
            ≡ spelled 0xa5 header generation [] 0 []) }
        ensures durable { D.tells → OnOk result ((D.stands disk.new).loose side
            ≡ settled (spelled 0xa5 header generation [] 0 [])) }

        ensures refused { IfErr result IsOutside }

        ensures other { D.size disk.new (other_side side) ≡ D.size disk.old (other_side side) }

        ensures any_moment { D.tells → (D.stands disk.old).last ≤ watch.old →
            EachMoment watch.old watch.new side (D.stands disk.old) (D.stands disk.new)
            (GivesEmpty header generation) }
        ensures ticks { watch.old ≤ watch.new }
        ensures calm { IsCalm (D.faults disk.old) (D.faults disk.new) result }
        ensures cause { IsCaused (D.faults disk.old) (D.faults disk.new) result }
    {
        shut(alloc, disk, watch, side)?;
        trim(disk, watch, side)?;
        write_head(disk, watch, side, header, generation)?;
        open_gate(disk, watch, side, header, generation)?;
        Ok(SideLog {
            side,
            head: Some((header, generation)),
            places: Vec::new(alloc),
            end: 17,
            waiting: None,
            frame: Vec::new(alloc),
        })
    }
}

/// The bytes 1 to 17 of an empty log: its head behind byte 0, and the closed gate of the first
/// frame.
fn head_of(header: Header, generation: u64) -> [u8; 17]
    ensures { result ≡ empty_back header generation }
{
    let [a, b, c, d, e, f, g, h] = generation.to_be_bytes();
    let Header {
        shards,
        copies,
        peer,
    } = header;
    [
        b'H', b'S', b'L', b'1', 1, shards, copies, peer, a, b, c, d, e, f, g, h, 0,
    ]
}

/// Cuts a side whose byte 0 is a closed gate to that byte.
fn trim<D: Disk>(disk: &mut D, watch: &mut Watch, side: Side) -> Result<(), PortFault>
    requires some { 0 < D.size disk.old side }
    requires blank { D.tells → IsBlankEverywhere ((D.stands disk.old).loose side) }

    ensures seen { D.tells → OnOk result (
        (D.stands disk.new).seen side ≡ take 1 ((D.stands disk.old).seen side)) }
    ensures settled { D.tells → OnOk result ((D.stands disk.new).loose side
        ≡ settled (take 1 ((D.stands disk.old).seen side))) }
    ensures size { OnOk result (D.size disk.new side ≡ 1) }
    ensures other { D.size disk.new (other_side side) ≡ D.size disk.old (other_side side) }

    ensures any_moment { (header : Header) (generation : ℕ) → D.tells
        → (D.stands disk.old).last ≤ watch.old →
        EachMoment watch.old watch.new side (D.stands disk.old) (D.stands disk.new)
        (GivesEmpty header generation) }
    ensures not_memory { IfErr result (λ fault. fault ≡ PortFault.Failed) }
    ensures calm { OnOk result (D.faults disk.new ≡ D.faults disk.old) }
    ensures ticks { watch.old ≤ watch.new }
    ensures cause { IsCausedBy PortFault.Failed (D.faults disk.old) (D.faults disk.new) result }
{
    cut_and_settle(disk, watch, side, 1)
}

/// Whether a gate is open.
pub(crate) fn is_open(gate: u8) -> bool
    ensures { result ≡ is_open gate }
{
    gate == 0xa5
}

/// Whether byte 0 is there and a closed gate.
fn is_shut<D: Disk>(alloc: Global, disk: &mut D, side: Side) -> Result<bool, SideFault>
    ensures size { IfOk result (λ shut. shut ≡ true → 0 < D.size disk.old side) }
    ensures shut { D.tells → IfOk result (λ shut. shut ≡ true
        → is_open (byte_at ((D.stands disk.old).seen side) 0) ≡ false) }
    ensures opens { D.tells → IfOk result (λ shut. shut ≡ false
        → 0 < length ((D.stands disk.old).seen side)
        → byte_at ((D.stands disk.old).seen side) 0 ≡ 0xa5) }

    ensures same_size { (s : Side) → D.size disk.new s ≡ D.size disk.old s }
    ensures same { D.tells → D.stands disk.new ≡ D.stands disk.old }
    ensures refused { IfErr result IsOutside }
    ensures calm { IsCalm (D.faults disk.old) (D.faults disk.new) result }
    ensures cause { IsCaused (D.faults disk.old) (D.faults disk.new) result }
{
    let size = disk.len(side)?;
    if size == 0 {
        return Ok(false);
    }
    let mut held = Vec::new(alloc);
    let gate = gate_at(disk, side, 0, &mut held)?;
    Ok(!is_open(gate))
}

/// Makes byte 0 a closed gate, where it isn't one.
fn shut<D: Disk>(
    alloc: Global,
    disk: &mut D,
    watch: &mut Watch,
    side: Side,
) -> Result<(), SideFault>
    requires { D.tells → IsBlankEverywhere ((D.stands disk.old).loose side) }

    ensures shut { D.tells → OnOk result (
        is_open (byte_at ((D.stands disk.new).seen side) 0) ≡ false) }
    ensures blank { D.tells → OnOk result (
        IsBlankEverywhere ((D.stands disk.new).loose side)) }
    ensures some { OnOk result (0 < D.size disk.new side) }
    ensures other { D.size disk.new (other_side side) ≡ D.size disk.old (other_side side) }

    ensures any_moment { (header : Header) (generation : ℕ) → D.tells
        → (D.stands disk.old).last ≤ watch.old →
        EachMoment watch.old watch.new side (D.stands disk.old) (D.stands disk.new)
        (GivesEmpty header generation) }
    ensures refused { IfErr result IsOutside }
    ensures calm { OnOk result (D.faults disk.new ≡ D.faults disk.old) }
    ensures ticks { watch.old ≤ watch.new }
    ensures cause { IsCaused (D.faults disk.old) (D.faults disk.new) result }
{
    if is_shut(alloc, disk, side)? {
        return Ok(());
    }
    put_and_settle(disk, watch, side, 0, &[0])?;
    Ok(())
}

/// Writes the bytes 1 to 17 of an empty log behind byte 0, which is a closed gate.
fn write_head<D: Disk>(
    disk: &mut D,
    watch: &mut Watch,
    side: Side,
    header: Header,
    generation: u64,
) -> Result<(), PortFault>
    requires size { D.size disk.old side ≡ 1 }
    requires shut { D.tells → is_open (byte_at ((D.stands disk.old).seen side) 0) ≡ false }
    requires still { D.tells → (D.stands disk.old).loose side
        ≡ settled ((D.stands disk.old).seen side) }

    ensures seen { D.tells → OnOk result ((D.stands disk.new).seen side
        ≡ byte_at ((D.stands disk.old).seen side) 0 ∷ empty_back header generation) }
    ensures settled { D.tells → OnOk result ((D.stands disk.new).loose side
        ≡ settled ((D.stands disk.new).seen side)) }
    ensures size { OnOk result (D.size disk.new side ≡ 18) }
    ensures other { D.size disk.new (other_side side) ≡ D.size disk.old (other_side side) }

    ensures any_moment { D.tells → (D.stands disk.old).last ≤ watch.old →
        EachMoment watch.old watch.new side (D.stands disk.old) (D.stands disk.new)
        (GivesEmpty header generation) }
    ensures not_memory { IfErr result (λ fault. fault ≡ PortFault.Failed) }
    ensures calm { OnOk result (D.faults disk.new ≡ D.faults disk.old) }
    ensures ticks { watch.old ≤ watch.new }
    ensures cause { IsCausedBy PortFault.Failed (D.faults disk.old) (D.faults disk.new) result }
{
    put_and_settle(disk, watch, side, 1, &head_of(header, generation))
}

/// Opens the gate at 0 of an empty log.
fn open_gate<D: Disk>(
    disk: &mut D,
    watch: &mut Watch,
    side: Side,
    header: Header,
    generation: u64,
) -> Result<(), PortFault>
    requires size { D.size disk.old side ≡ 18 }
    requires head { D.tells → (byte : ℕ) × ((D.stands disk.old).seen side
        ≡ byte ∷ empty_back header generation) }
    requires still { D.tells → (D.stands disk.old).loose side
        ≡ settled ((D.stands disk.old).seen side) }

    ensures seen { D.tells → OnOk result ((D.stands disk.new).seen side
        ≡ 0xa5 ∷ empty_back header generation) }
    ensures settled { D.tells → OnOk result ((D.stands disk.new).loose side
        ≡ settled (0xa5 ∷ empty_back header generation)) }
    ensures size { OnOk result (D.size disk.new side ≡ 18) }
    ensures other { D.size disk.new (other_side side) ≡ D.size disk.old (other_side side) }

    ensures any_moment { D.tells → (D.stands disk.old).last ≤ watch.old →
        EachMoment watch.old watch.new side (D.stands disk.old) (D.stands disk.new)
        (GivesEmpty header generation) }
    ensures not_memory { IfErr result (λ fault. fault ≡ PortFault.Failed) }
    ensures calm { OnOk result (D.faults disk.new ≡ D.faults disk.old) }
    ensures ticks { watch.old ≤ watch.new }
    ensures cause { IsCausedBy PortFault.Failed (D.faults disk.old) (D.faults disk.new) result }
{
    put_and_settle(disk, watch, side, 0, &[0xa5])
}
