//! The answer of an operation, its end, and its wait.
ghost use Rattle.std.specs.Prelude.{◌≡◌, IfNone, IfOk, OnOk};
ghost use Rattle.hs_core_words.specs.Changing.{end_operation};
ghost use Rattle.hs_core_state.specs.Going.{set_wait, told_with};
ghost use Rattle.hs_core_state.specs.Keeping.{KeepsCore};
ghost use Rattle.hs_core_words.specs.Looking.{operation_of};

use crate::State;
use crate::no_memory::NoMemory;
use crate::seating::seat;
use hs_awaiting::{Wait, Waiting};
use hs_journal::Who;
use hs_limits::{Held, ListOf};
use hs_model::Reply;

impl State {
    /// The journal tells the answer of an operation that is not kept any more, and its session changes
    /// as the reply says.
    pub fn tell_answer(
        &mut self,
        line: u64,
        waiting: Waiting,
        reply: Reply,
        helds: ListOf<Held>,
    ) -> Result<(), NoMemory>
        ensures ok { OnOk result (self.new ≡ told_with line reply helds waiting self.old) }
        ensures kept { KeepsCore self.old self.new }
    {
        let deed = waiting.operation.into_deed(&self.sessions, &reply)?;
        seat(&mut self.sessions, &deed, helds.as_slice())?;
        self.note(Who::Line(line), deed, reply)
    }

    /// The operation of a line is over. None exactly where there is none.
    pub fn end_operation(&mut self, line: u64) -> Result<Option<Waiting>, NoMemory>
        ensures value { IfOk result (λ waiting. waiting ≡ operation_of line self.old) }
        ensures ok { OnOk result (self.new ≡ end_operation line self.old) }
        ensures same { IfOk result (λ waiting. IfNone waiting (self.new ≡ self.old)) }
        ensures kept { KeepsCore self.old self.new }
    {
        Ok(self.operations.end(line)?)
    }

    /// The operation of a line waits.
    pub fn set_wait(&mut self, line: u64, what: Wait) -> Result<(), NoMemory>
        ensures ok { OnOk result (self.new ≡ set_wait line what self.old) }
        ensures kept { KeepsCore self.old self.new }
    {
        self.operations.set_wait(line, what)?;
        Ok(())
    }
}
