//! A source in memory, which can be told to fail.
ghost use Rattle.std.specs.Prelude.{◌≡◌, ◌<◌, ◌≤◌, ◌+◌, length, drop, ◌↔◌, false, IsTrue, IsErrOf, IfOk, OnErr, Some};
ghost use Rattle.hs_ports.specs.Fault.{IsCausedBy, IsSteady};
ghost use Rattle.hs_ports.specs.Schedule.{next_call, fails_at};
ghost use Rattle.hs_ports.specs.Source.{Took, Untaken};

use crate::schedule::Schedule;
use crate::{PortFault, Source};
use std::alloc::{AllocError, Global};
use std::marker::Model;

/// Bytes in memory as a source. A contract sees the bytes that are left, the numbers of the calls
/// that fail, and the counts of calls and faults.
#[derive(Drop)]
pub struct ListSource {
    bytes: Vec<u8>,
    at: usize,
    schedule: Schedule,
}

impl Model for ListSource {
    ghost use Rattle.std.specs.Prelude.{◌≤◌, length, drop};
    ghost use Rattle.hs_ports.specs.Devices.{Feed};

    ghost Value = { Feed };

    ghost view = { λ s. record {
      left = drop s.at s.bytes.items;
      fails = s.schedule.fails.items;
      calls = s.schedule.calls;
      faults = s.schedule.faults;
    } };

    ghost invariant = { λ s. s.at ≤ length s.bytes.items };
}

impl ListSource {
    /// A source of these bytes, whose calls of the numbers `fails` answer `Failed`. The first call
    /// has number 1.
    pub fn new(_alloc: Global, bytes: Vec<u8>, fails: Vec<u64>) -> ListSource
        ensures left { result.left ≡ bytes.items }
        ensures fails { result.fails ≡ fails.items }
        ensures calls { result.calls ≡ 0 }
        ensures faults { result.faults ≡ 0 }
    {
        ListSource {
            bytes,
            at: 0,
            schedule: Schedule::new(fails),
        }
    }

    /// How often it has failed; at `u64::MAX` the count stands still.
    pub fn faults(&self) -> u64
        ensures value { result ≡ self.now.faults }
    {
        self.schedule.faults
    }
}

// Appends a piece of what is left from the place on, or nothing.
fn take_from(bytes: &[u8], at: usize, max: usize, into: &mut Vec<u8>) -> Result<usize, AllocError>
    requires some { 0 < max }
    requires in_range { at ≤ length bytes.now }
    ensures taken { IfOk result (λ n. Took (Some (drop at bytes.now)) into.old.items
        (Some (drop (at + n) bytes.now)) into.new.items max n) }
    ensures within { IfOk result (λ n. at + n ≤ length bytes.now) }
    ensures err { OnErr result (into.new.items ≡ into.old.items) }
{
    let n = max.min(bytes.len() - at);
    into.extend_from_slice(&bytes[at..at + n])?;
    Ok(n)
}

impl Source for ListSource {
    ghost use Rattle.std.specs.Prelude.{Some};

    ghost left = { λ s. Some s.left };

    ghost faults = { λ s. s.faults };

    fn take(&mut self, max: usize, into: &mut Vec<u8>) -> Result<usize, PortFault>
        requires { 0 < max }
        ensures taken { IfOk result (λ n.
            Took (Some self.old.left) into.old.items (Some self.new.left) into.new.items max n) }
        ensures untaken { OnErr result (
            Untaken (Some self.old.left) into.old.items (Some self.new.left) into.new.items) }
        ensures calm { IsSteady self.old.faults self.new.faults result }
        ensures cause { IsCausedBy PortFault.Failed self.old.faults self.new.faults result }

        // It fails exactly at the calls that it was told.
        ensures exact { IsErrOf result PortFault.Failed ↔
            IsTrue (fails_at self.old.fails (next_call self.old.calls)) }
        ensures same { fails_at self.old.fails (next_call self.old.calls) ≡ false →
            self.new.faults ≡ self.old.faults }
        ensures calls { self.new.calls ≡ next_call self.old.calls }
        ensures fails { self.new.fails ≡ self.old.fails }
    {
        if self.schedule.refuses() {
            return Err(PortFault::Failed);
        }
        match take_from(&self.bytes, self.at, max, into) {
            Ok(n) => {
                self.at += n;
                Ok(n)
            }
            Err(_) => Err(PortFault::NoMemory),
        }
    }
}
