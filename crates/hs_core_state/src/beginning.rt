//! The first step of a client's operation, and where it is put.
ghost use Rattle.std.specs.Prelude.{◌≡◌, OnOk, IfOk};
ghost use Rattle.hs_awaiting.specs.declared.next.Next.TheVariants as next;
ghost use Rattle.hs_awaiting.specs.Going.{given_by};
ghost use Rattle.hs_core_words.specs.Changing.{add_operation};
ghost use Rattle.hs_core_state.specs.Going.{gains_by, step_by};
ghost use Rattle.hs_core_state.specs.Keeping.{KeepsCore};
ghost use Rattle.hs_members.specs.Members.{IsShard};
ghost use Rattle.hs_ops.specs.Operations.{after_step};

use crate::State;
use crate::aim::Aim;
use crate::no_memory::NoMemory;
use hs_awaiting::{Judged, Next, Waiting, judge};
use hs_ops::Operation;
use hs_tokens::SessionsView;

impl State {
    /// A line is the last one. It takes no memory.
    pub fn set_line(&mut self, line: u64)
        ensures { self.new ≡ record self.old {
          progress = record self.old.progress { last_line = line };
        } }
    {
        self.last_line = line;
    }

    /// An operation takes its first step, by what it sees.
    pub fn judge_first(
        &mut self,
        operation: &mut Operation,
        aim: Aim,
        busy: Option<u64>,
    ) -> Result<Judged, NoMemory>
        requires { IsShard self.old.members.shape aim.shard }
        ensures step { IfOk result (λ judged. judged.step
            ≡ step_by next.Go aim busy self.old operation.old) }
        ensures helds { IfOk result (λ judged. judged.helds
            ≡ given_by judged.step (gains_by aim busy self.old operation.old.op)) }
        ensures after { OnOk result (operation.new
            ≡ after_step (step_by next.Go aim busy self.old operation.old) operation.old) }
        ensures same { self.new ≡ self.old }
    {
        let sight = self.sight(aim)?;
        let roots = self.catalogue(aim.shard).roots();
        let sessions = SessionsView::new(&self.sessions, operation.session());
        let view = sight.view(aim, busy, self.limits, sessions, roots);
        Ok(judge(
            self.alloc,
            operation,
            &view,
            sight.pointers.as_slice(),
            &Next::Go,
        )?)
    }

    /// An operation more is without an answer.
    pub fn add_operation(&mut self, line: u64, waiting: Waiting) -> Result<(), NoMemory>
        requires { IsShard self.old.members.shape waiting.shard }
        ensures ok { OnOk result (self.new ≡ add_operation line waiting self.old) }
        ensures kept { KeepsCore self.old self.new }
    {
        self.operations.put(line, waiting)?;
        Ok(())
    }
}
