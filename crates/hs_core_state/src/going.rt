//! The next step of an operation, by what it sees.
ghost use Rattle.std.specs.Prelude.{◌≡◌, Some, None, IfOk, OnOk};
ghost use Rattle.hs_awaiting.specs.declared.waiting.Waiting.{Waiting};
ghost use Rattle.hs_awaiting.specs.Going.{given_by, judge_in};
ghost use Rattle.hs_core_state.specs.Going.{gains_by, sight_of, step_by, view_by};
ghost use Rattle.hs_core_state.specs.Keeping.{KeepsCore};
ghost use Rattle.hs_core_words.specs.Looking.{operation_of};
ghost use Rattle.hs_members.specs.Members.{IsShard};

use crate::State;
use crate::aim::Aim;
use crate::no_memory::NoMemory;
use hs_awaiting::{Judged, Next, Operations};
use hs_tokens::{Sessions, SessionsView};

impl State {
    /// The operation of a line takes its next step, by what it sees.
    pub fn judge_at(&mut self, line: u64, aim: Aim, how: &Next) -> Result<Judged, NoMemory>
        requires shard { IsShard self.old.members.shape aim.shard }
        ensures ok { OnOk result (self.new ≡ record self.old {
          operations = judge_in how.now
              (sight_of aim self.old).pointers (view_by (sight_of aim self.old) aim None self.old)
              line self.old.operations;
        }) }
        ensures step { (w : Waiting) → operation_of line self.old ≡ Some w
            → IfOk result (λ judged. judged.step ≡ step_by how.now aim None self.old w.operation) }
        ensures helds { (w : Waiting) → operation_of line self.old ≡ Some w
            → IfOk result (λ judged. judged.helds
            ≡ given_by judged.step (gains_by aim None self.old w.operation.op)) }
        ensures kept { KeepsCore self.old self.new }
    {
        let sight = self.sight(aim)?;
        let roots = self.catalogues[usize::from(aim.shard)].roots();
        let sessions = sessions_for(&self.sessions, &self.operations, line);
        let view = sight.view(aim, None, self.limits, sessions, roots);
        let pointers = sight.pointers.as_slice();
        Ok(self.operations.judge(line, &view, pointers, how)?)
    }
}

/// The open sessions, with that of a line's operation at hand. It takes no memory.
fn sessions_for<'a>(sessions: &'a Sessions, operations: &Operations, line: u64) -> SessionsView<'a>
    ensures { result ≡ sessions.now.seats }
{
    match operations.get(line) {
        Some(waiting) => SessionsView::new(sessions, waiting.operation.session()),
        None => SessionsView::new(sessions, None),
    }
}
