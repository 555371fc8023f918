//! The beginning of an event, and the end of a core without memory.
ghost use Rattle.std.specs.Prelude.{◌≡◌, Some};
ghost use Rattle.hs_core_state.specs.Keeping.{KeepsCore};
ghost use Rattle.hs_core_words.specs.Step.{begin_event, is_first_line};
ghost use Rattle.hs_desk.specs.declared.fault.CoreFault.TheVariants as fault;

use crate::State;
use crate::no_memory::NoMemory;
use hs_desk::CoreFault;

impl State {
    /// There was no memory for an event, so that the core has ended.
    pub fn give_up(&mut self, line: u64, moment: u64)
        ensures { self.new ≡ record self.old {
          ended = Some fault.NoMemory;
          progress = record self.old.progress { last_line = line };
          moment = moment;
        } }
    {
        self.ended = Some(CoreFault::NoMemory);
        self.last_line = line;
        self.moment = moment;
    }

    /// The event's moment, and its line, where it has one.
    pub fn begin_event(&mut self, line: u64, moment: u64)
        ensures ok { self.new ≡ begin_event line moment self.old }
        ensures kept { KeepsCore (record self.old {
          moment = moment;
          progress = record self.old.progress { event_line = self.new.progress.event_line };
        }) self.new }
    {
        self.first_line(line);
        self.moment = moment;
        if line != 0 {
            self.event_line = line;
        }
    }

    /// With the first line the numbers of messages start at 1 again, if none is under way.
    fn first_line(&mut self, line: u64)
        ensures ok { self.new ≡ is_first_line line self.old }
        ensures kept { KeepsCore self.old self.new }
    {
        if self.event_line == 0 && line != 0 && self.pool.is_empty() {
            self.pool.restart_numbers();
        }
    }
}
