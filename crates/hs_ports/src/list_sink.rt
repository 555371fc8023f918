//! A sink in memory, which can be told to fail.
ghost use Rattle.std.specs.Prelude.{◌≡◌, [], length, map, IsTrue, Some, OnOk, OnErr, IfOk, IfErr};
ghost use Rattle.std.specs.List.{zip};
ghost use Rattle.hs_ports.specs.Fault.{IsCausedBy, IsSteady};
ghost use Rattle.hs_ports.specs.Schedule.{next_call, fails_at};
ghost use Rattle.hs_ports.specs.Sink.{Put};
ghost use Rattle.hs_ports.specs.Watch.{Ticks};

use crate::schedule::Schedule;
use crate::{PortFault, Sink, Watch};
use std::alloc::{AllocError, Global};
use std::marker::Model;

/// A sink that keeps what is put, each byte with its moment. A contract sees these pairs, the
/// numbers of the calls that fail, and the counts of calls and faults.
#[derive(Drop)]
pub struct ListSink {
    alloc: Global,
    bytes: Vec<u8>,
    moments: Vec<u64>,
    schedule: Schedule,
}

impl Model for ListSink {
    ghost use Rattle.std.specs.Prelude.{◌≡◌, length};
    ghost use Rattle.std.specs.List.{zip};
    ghost use Rattle.hs_ports.specs.Devices.{Intake};

    ghost Value = { Intake };

    ghost view = { λ s. record {
      got = zip s.bytes.items s.moments.items;
      fails = s.schedule.fails.items;
      calls = s.schedule.calls;
      faults = s.schedule.faults;
    } };

    ghost invariant = { λ s. length s.moments.items ≡ length s.bytes.items };
}

impl ListSink {
    /// A sink with nothing in it, whose calls of the numbers `fails` answer `Failed`. The first
    /// call has number 1.
    pub fn new(alloc: Global, fails: Vec<u64>) -> ListSink
        ensures got { result.got ≡ [] }
        ensures fails { result.fails ≡ fails.items }
        ensures calls { result.calls ≡ 0 }
        ensures faults { result.faults ≡ 0 }
    {
        ListSink {
            alloc,
            bytes: Vec::new(alloc),
            moments: Vec::new(alloc),
            schedule: Schedule::new(fails),
        }
    }

    /// The bytes that were put, in order.
    #[tactic(auto, using(crate::proofs::StampLemmas::firsts))]
    pub fn bytes(&self) -> &[u8]
        ensures value { result.now ≡ map (λ stamp. stamp.0) self.now.got }
    {
        &self.bytes
    }

    /// How often it has failed; at `u64::MAX` the count stands still.
    pub fn faults(&self) -> u64
        ensures value { result ≡ self.now.faults }
    {
        self.schedule.faults
    }
}

// Adds the piece and the moment of each of its bytes, or nothing.
fn add(
    alloc: Global,
    bytes: &mut Vec<u8>,
    moments: &mut Vec<u64>,
    moment: u64,
    piece: &[u8],
) -> Result<(), AllocError>
    requires { length moments.old.items ≡ length bytes.old.items }
    ensures put { OnOk result (Put (Some (zip bytes.old.items moments.old.items))
        (Some (zip bytes.new.items moments.new.items)) moment piece.now (length piece.now)) }
    ensures even { length moments.new.items ≡ length bytes.new.items }
    ensures bytes_stay { OnErr result (bytes.new.items ≡ bytes.old.items) }
    ensures moments_stay { OnErr result (moments.new.items ≡ moments.old.items) }
{
    let stamps = vec![in alloc; moment; piece.len()]?;
    moments.reserve(stamps.len())?;
    bytes.extend_from_slice(piece)?;
    match moments.extend_from_slice(&stamps) {
        Ok(()) => Ok(()),
        Err(_) => unreachable!(),
    }
}

impl Sink for ListSink {
    ghost use Rattle.std.specs.Prelude.{Some};

    ghost got = { λ s. Some s.got };

    ghost faults = { λ s. s.faults };

    fn put(&mut self, watch: &mut Watch, piece: &[u8]) -> Result<usize, PortFault>
        ensures put { IfOk result (λ n.
            Put (Some self.old.got) (Some self.new.got) watch.new piece.now n) }
        ensures whole { IfOk result (λ n. n ≡ length piece.now) }
        ensures kept { OnErr result (self.new.got ≡ self.old.got) }
        ensures not_memory { IfErr result (λ fault. fault ≡ PortFault.Failed) }
        ensures later { Ticks watch.old watch.new }
        ensures calm { IsSteady self.old.faults self.new.faults result }
        ensures cause { IsCausedBy PortFault.Failed self.old.faults self.new.faults result }

        // It fails at the calls that it was told, and its count rises only where it fails.
        ensures exact { IsTrue (fails_at self.old.fails (next_call self.old.calls)) →
            result ≡ Err PortFault.Failed }
        ensures same { OnOk result (self.new.faults ≡ self.old.faults) }
        ensures calls { self.new.calls ≡ next_call self.old.calls }
        ensures fails { self.new.fails ≡ self.old.fails }
    {
        watch.raise();
        if self.schedule.refuses() {
            return Err(PortFault::Failed);
        }
        let moment = watch.now();
        match add(
            self.alloc,
            &mut self.bytes,
            &mut self.moments,
            moment,
            piece,
        ) {
            Ok(()) => Ok(piece.len()),
            Err(_) => {
                self.schedule.fail();
                Err(PortFault::Failed)
            }
        }
    }
}
