//! Which calls of a device in memory fail, and how often it has failed.
ghost use Rattle.std.specs.Prelude.{◌≡◌, ◌≤◌, ◌+◌, ◌-◌, ◌^◌, ◌&&◌, not, if◌then◌else◌, is_err, min};
ghost use Rattle.hs_ports.specs.Schedule.{next_call, fails_at};

use crate::PortFault;

/// The numbers, from 1, of the calls that fail, beside the counts of calls and faults.
#[derive(Drop)]
pub struct Schedule {
    pub fails: Vec<u64>,
    pub calls: u64,
    pub faults: u64,
}

impl Schedule {
    /// Before the first call.
    pub fn new(fails: Vec<u64>) -> Schedule
        ensures fails { result.fails.items ≡ fails.items }
        ensures calls { result.calls ≡ 0 }
        ensures faults { result.faults ≡ 0 }
    {
        Schedule {
            fails,
            calls: 0,
            faults: 0,
        }
    }

    /// Counts a call, and says whether it is one of those that fail; then it counts the fault too.
    pub fn refuses(&mut self) -> bool
        ensures value { result ≡ fails_at self.old.fails.items (next_call self.old.calls) }
        ensures calls { self.new.calls ≡ next_call self.old.calls }
        ensures fails { self.new.fails.items ≡ self.old.fails.items }
        ensures faults { self.new.faults ≡ (if result then
            min (self.old.faults + 1) (2 ^ 64 - 1) else self.old.faults) }
        ensures later { self.old.faults ≤ self.new.faults }
    {
        self.calls = self.calls.saturating_add(1);
        let fails = self.fails.contains(&self.calls);
        if fails {
            self.fail();
        }
        fails
    }

    /// Counts a fault; at `u64::MAX` the count stands still.
    pub fn fail(&mut self)
        ensures faults { self.new.faults ≡ min (self.old.faults + 1) (2 ^ 64 - 1) }
        ensures later { self.old.faults ≤ self.new.faults }
        ensures calls { self.new.calls ≡ self.old.calls }
        ensures fails { self.new.fails.items ≡ self.old.fails.items }
    {
        self.faults = self.faults.saturating_add(1);
    }

    /// Counts a fault of a call that wasn't refused, and hands the answer on.
    pub fn count(&mut self, refused: bool, answer: Result<(), PortFault>) -> Result<(), PortFault>
        ensures value { result ≡ answer }
        ensures faults { self.new.faults ≡ (if is_err answer && not refused then
            min (self.old.faults + 1) (2 ^ 64 - 1) else self.old.faults) }
        ensures later { self.old.faults ≤ self.new.faults }
        ensures calls { self.new.calls ≡ self.old.calls }
        ensures fails { self.new.fails.items ≡ self.old.fails.items }
    {
        if answer.is_err() && !refused {
            self.fail();
        }
        answer
    }
}
