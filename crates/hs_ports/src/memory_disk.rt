//! A disk in memory, which can be told to fail.
ghost use Rattle.std.specs.Prelude.{◌≡◌, ◌<◌, ◌≤◌, ◌+◌, ◌++◌, ◌↔◌, false, ℕ, length, take, drop, max};
ghost use Rattle.std.specs.Prelude.{IfOk, IfErr, OnOk, OnErr, IsTrue, IsErrOf};
ghost use Rattle.hs_ports.specs.declared.disk.Side.{Side};
ghost use Rattle.hs_ports.specs.Disk.{HasRead, IsImage, IsBetween, Torn, Clipped, Happens, Untouched};
ghost use Rattle.hs_ports.specs.Disk.{other_side, overwritten, written, shortened, settled};
ghost use Rattle.hs_ports.specs.Fault.{IsCausedBy, IsSteady};
ghost use Rattle.hs_ports.specs.Schedule.{next_call, fails_at};
ghost use Rattle.hs_ports.specs.Watch.{Ticks};

use crate::schedule::Schedule;
use crate::sides::Sides;
use crate::{Disk, PortFault, Side, Tear, Watch};
use std::alloc::{AllocError, Global};

/// A disk in memory. It keeps a record of all calls that change it, and a contract sees what they
/// made of its contents at each moment.
#[derive(Drop)]
pub struct MemoryDisk {
    sides: Sides,
    schedule: Schedule,
}

impl MemoryDisk {
    ghost use Rattle.hs_ports.specs.Memory.{stands_of, fails_of, calls_of};
    ghost use Rattle.hs_ports.specs.MemoryDisk.{IsFresh};

    /// A disk with these bytes on its sides, whose calls of the numbers `fails` answer `Failed`.
    /// The first call has number 1.
    pub fn new(alloc: Global, zero: Vec<u8>, one: Vec<u8>, fails: Vec<u64>) -> MemoryDisk
        ensures zero { ⟦<MemoryDisk as Disk>⟧.size result Side.Zero ≡ length zero.items }
        ensures one { ⟦<MemoryDisk as Disk>⟧.size result Side.One ≡ length one.items }

        // A crash leaves these bytes, at each moment until a call changes them.
        ensures fresh { IsFresh zero.items one.items (⟦<MemoryDisk as Disk>⟧.stands result) }

        ensures fails { fails_of result ≡ fails.items }
        ensures calls { calls_of result ≡ 0 }
        ensures faults { ⟦<MemoryDisk as Disk>⟧.faults result ≡ 0 }
    {
        MemoryDisk {
            sides: Sides::new(alloc, zero, one),
            schedule: Schedule::new(fails),
        }
    }

    /// One content of a side that a crash may have left at a moment: while the call acts that
    /// raised the watch to it, or later, until the next one. At a moment above that of the last
    /// call it is one that may be left from now on. It does the record's calls again, and takes
    /// memory for the side three times.
    #[tactic(auto, using(crate::proofs::SidesLemmas::last_is_below))]
    pub fn image_at(&self, side: Side, moment: u64, tear: Tear) -> Result<Vec<u8>, PortFault>
        ensures image { IfOk result (λ bytes.
            IsImage ((stands_of self.now).past moment side) bytes.items) }
        ensures new { tear ≡ Tear.New → (stands_of self.now).last < moment → IfOk result (λ bytes.
            bytes.items ≡ (stands_of self.now).seen side) }
        ensures memory { IfErr result (λ fault. fault ≡ PortFault.NoMemory) }
    {
        match self.sides.at(side).image_at(moment, tear) {
            Ok(bytes) => Ok(bytes),
            Err(_) => Err(PortFault::NoMemory),
        }
    }
}

// Appends what is there from the place on, up to a bound.
fn copy(from: &[u8], at: u64, max: usize, into: &mut Vec<u8>) -> Result<usize, AllocError>
    requires { 0 < max }
    ensures found { IfOk result (λ n.
        HasRead (length from.now) at max into.old.items into.new.items n) }
    ensures value { IfOk result (λ n.
        into.new.items ≡ into.old.items ++ take n (drop at from.now)) }
    ensures err { OnErr result (into.new.items ≡ into.old.items) }
{
    if at >= from.len() as u64 {
        return Ok(0);
    }
    let rest = &from[at as usize..];
    let n = max.min(rest.len());
    into.extend_from_slice(&rest[..n])?;
    Ok(n)
}

impl Disk for MemoryDisk {
    ghost use Rattle.hs_ports.specs.Memory.{stands_of, size_of, fails_of, calls_of, faults_of};
    ghost use Rattle.hs_ports.specs.SidesLaws.{fits_at, since_at, stays_at};
    ghost use Rattle.std.specs.Prelude.{refl};

    ghost tells = { Unit {0} };

    ghost size = { size_of };

    ghost stands = { stands_of };

    ghost faults = { faults_of };

    ghost fits = { λ disk side. fits_at disk.sides.zero disk.sides.one side
        disk.sides.zero_fits disk.sides.one_fits };

    ghost sized = { λ told disk side. refl };

    ghost since = { λ told disk side m later.
        since_at disk.sides.zero disk.sides.one side m later };

    ghost stays = { λ told disk side. stays_at disk.sides.zero disk.sides.one side };

    fn len(&mut self, side: Side) -> Result<u64, PortFault>
        ensures value { IfOk result (λ n. n ≡ size_of self.old side) }

        ensures same_size { (s : Side) → size_of self.new s ≡ size_of self.old s }
        ensures same { stands_of self.new ≡ stands_of self.old }

        ensures not_memory { IfErr result (λ fault. fault ≡ PortFault.Failed) }
        ensures calm { IsSteady (faults_of self.old) (faults_of self.new) result }
        ensures cause { IsCausedBy PortFault.Failed (faults_of self.old) (faults_of self.new) result }

        // It fails exactly at the calls that it was told.
        ensures exact { IsErrOf result PortFault.Failed ↔
            IsTrue (fails_at (fails_of self.old) (next_call (calls_of self.old))) }
        ensures calls { calls_of self.new ≡ next_call (calls_of self.old) }
        ensures fails { fails_of self.new ≡ fails_of self.old }
    {
        if self.schedule.refuses() {
            return Err(PortFault::Failed);
        }
        Ok(self.sides.at(side).bytes().len() as u64)
    }

    fn read(
        &mut self,
        side: Side,
        at: u64,
        max: usize,
        into: &mut Vec<u8>,
    ) -> Result<usize, PortFault>
        requires { 0 < max }

        ensures found { IfOk result (λ n.
            HasRead (size_of self.old side) at max into.old.items into.new.items n) }
        ensures value { IfOk result (λ n.
            into.new.items ≡ into.old.items ++ take n (drop at ((stands_of self.old).seen side))) }
        ensures untaken { OnErr result (into.new.items ≡ into.old.items) }

        ensures same_size { (s : Side) → size_of self.new s ≡ size_of self.old s }
        ensures same { stands_of self.new ≡ stands_of self.old }

        ensures calm { IsSteady (faults_of self.old) (faults_of self.new) result }
        ensures cause { IsCausedBy PortFault.Failed (faults_of self.old) (faults_of self.new) result }

        // It fails exactly at the calls that it was told.
        ensures exact { IsErrOf result PortFault.Failed ↔
            IsTrue (fails_at (fails_of self.old) (next_call (calls_of self.old))) }
        ensures calls { calls_of self.new ≡ next_call (calls_of self.old) }
        ensures fails { fails_of self.new ≡ fails_of self.old }
    {
        if self.schedule.refuses() {
            return Err(PortFault::Failed);
        }
        match copy(self.sides.at(side).bytes(), at, max, into) {
            Ok(n) => Ok(n),
            Err(_) => Err(PortFault::NoMemory),
        }
    }

    fn write_at(
        &mut self,
        watch: &mut Watch,
        side: Side,
        at: u64,
        bytes: &[u8],
    ) -> Result<(), PortFault>
        requires { at ≤ size_of self.old side }

        ensures size { OnOk result (
            size_of self.new side ≡ max (size_of self.old side) (at + length bytes.now)) }
        ensures seen { OnOk result ((stands_of self.new).seen side
            ≡ overwritten at bytes.now ((stands_of self.old).seen side)) }

        ensures size_torn { OnErr result (IsBetween (size_of self.old side)
            (max (size_of self.old side) (at + length bytes.now)) (size_of self.new side)) }
        ensures torn { OnErr result (Torn at (length bytes.now)
            ((stands_of self.old).seen side) ((stands_of self.new).seen side)) }
        ensures kept { OnErr result (
            (stands_of self.new).seen side ≡ (stands_of self.old).seen side) }

        ensures loose { (stands_of self.new).loose side
            ≡ written at (length bytes.now) ((stands_of self.old).loose side) }
        ensures moment { (stands_of self.old).last ≤ watch.old →
            Happens side watch.new (written at (length bytes.now) ((stands_of self.old).loose side))
            (stands_of self.old) (stands_of self.new) }
        ensures later { Ticks watch.old watch.new }

        ensures same_size { size_of self.new (other_side side) ≡ size_of self.old (other_side side) }
        ensures same { Untouched (other_side side) (stands_of self.old) (stands_of self.new) }

        ensures not_memory { IfErr result (λ fault. fault ≡ PortFault.Failed) }
        ensures calm { IsSteady (faults_of self.old) (faults_of self.new) result }
        ensures cause { IsCausedBy PortFault.Failed (faults_of self.old) (faults_of self.new) result }

        // It fails at the calls that it was told.
        ensures exact { IsTrue (fails_at (fails_of self.old) (next_call (calls_of self.old))) →
            result ≡ Err PortFault.Failed }
        ensures calls { calls_of self.new ≡ next_call (calls_of self.old) }
        ensures fails { fails_of self.new ≡ fails_of self.old }
    {
        watch.raise();
        let refused = self.schedule.refuses();
        let result = self.sides.write(refused, side, watch.now(), at, bytes);
        self.schedule.count(refused, result)
    }

    fn cut(&mut self, watch: &mut Watch, side: Side, len: u64) -> Result<(), PortFault>
        requires { len ≤ size_of self.old side }

        ensures size { OnOk result (size_of self.new side ≡ len) }
        ensures seen { OnOk result (
            (stands_of self.new).seen side ≡ take len ((stands_of self.old).seen side)) }

        ensures size_torn { OnErr result (
            IsBetween len (size_of self.old side) (size_of self.new side)) }
        ensures torn { OnErr result (
            Clipped len ((stands_of self.old).seen side) ((stands_of self.new).seen side)) }
        ensures kept { OnErr result (
            (stands_of self.new).seen side ≡ (stands_of self.old).seen side) }

        ensures loose { (stands_of self.new).loose side
            ≡ shortened len ((stands_of self.old).loose side) }
        ensures moment { (stands_of self.old).last ≤ watch.old →
            Happens side watch.new (shortened len ((stands_of self.old).loose side))
            (stands_of self.old) (stands_of self.new) }
        ensures later { Ticks watch.old watch.new }

        ensures same_size { size_of self.new (other_side side) ≡ size_of self.old (other_side side) }
        ensures same { Untouched (other_side side) (stands_of self.old) (stands_of self.new) }

        ensures not_memory { IfErr result (λ fault. fault ≡ PortFault.Failed) }
        ensures calm { IsSteady (faults_of self.old) (faults_of self.new) result }
        ensures cause { IsCausedBy PortFault.Failed (faults_of self.old) (faults_of self.new) result }

        // It fails at the calls that it was told.
        ensures exact { IsTrue (fails_at (fails_of self.old) (next_call (calls_of self.old))) →
            result ≡ Err PortFault.Failed }
        ensures calls { calls_of self.new ≡ next_call (calls_of self.old) }
        ensures fails { fails_of self.new ≡ fails_of self.old }
    {
        watch.raise();
        let refused = self.schedule.refuses();
        let result = self.sides.cut(refused, side, watch.now(), len);
        self.schedule.count(refused, result)
    }

    fn sync(&mut self, watch: &mut Watch, side: Side) -> Result<(), PortFault>
        ensures settled { OnOk result (
            (stands_of self.new).loose side ≡ settled ((stands_of self.old).seen side)) }
        ensures unsettled { OnErr result (
            (stands_of self.new).loose side ≡ (stands_of self.old).loose side) }

        ensures moment { (stands_of self.old).last ≤ watch.old →
            Happens side watch.new ((stands_of self.old).loose side)
            (stands_of self.old) (stands_of self.new) }
        ensures later { Ticks watch.old watch.new }

        ensures seen { (stands_of self.new).seen side ≡ (stands_of self.old).seen side }
        ensures same_size { (s : Side) → size_of self.new s ≡ size_of self.old s }
        ensures same { Untouched (other_side side) (stands_of self.old) (stands_of self.new) }

        ensures not_memory { IfErr result (λ fault. fault ≡ PortFault.Failed) }
        ensures calm { IsSteady (faults_of self.old) (faults_of self.new) result }
        ensures cause { IsCausedBy PortFault.Failed (faults_of self.old) (faults_of self.new) result }

        // It fails at the calls that it was told.
        ensures exact { IsTrue (fails_at (fails_of self.old) (next_call (calls_of self.old))) →
            result ≡ Err PortFault.Failed }
        ensures calls { calls_of self.new ≡ next_call (calls_of self.old) }
        ensures fails { fails_of self.new ≡ fails_of self.old }
    {
        watch.raise();
        let refused = self.schedule.refuses();
        let result = self.sides.sync(refused, side, watch.now());
        self.schedule.count(refused, result)
    }
}
