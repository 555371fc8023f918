//! Opening a session of the plain store.
ghost use Rattle.std.specs.Prelude.{◌≡◌, IfOk, OnOk};
ghost use Rattle.hs_model.specs.declared.op.Op.TheVariants.{Open};
ghost use Rattle.hs_model.specs.Judge.{judge, refusals};
ghost use Rattle.hs_model.specs.Refusals.{first};

use super::MemoryStore;
use crate::Answer;
use crate::seat::Seat;
use hs_limits::{Limits, Name};
use hs_model::{Asked, Deed, ModelFault, Reply};

impl MemoryStore {
    /// Opens a session.
    pub(super) fn open(&mut self, limits: Limits, session: Name) -> Result<Answer, ModelFault>
        ensures reply { IfOk result
            (λ answer. answer.reply ≡ (judge limits self.old (Open session)).reply) }
        ensures deed { IfOk result
            (λ answer. answer.deed ≡ (judge limits self.old (Open session)).deed) }
        ensures store { OnOk result (self.new ≡ (judge limits self.old (Open session)).store) }
    {
        if let Some(refusal) = self.open_refusal(limits, &session)? {
            return Ok(Answer::refused(refusal, Asked::Open { session }));
        }
        self.sessions
            .insert(session.copy(self.alloc)?, Seat::new(self.alloc))?;
        Ok(Answer {
            reply: Reply::Ok,
            deed: Deed::Opened { session },
        })
    }

    /// Why a session is not opened, if it is not.
    #[tactic(auto, unfolding(hs_model::specs::Judge::refusals))]
    pub(super) fn open_refusal(
        &self,
        limits: Limits,
        session: &Name,
    ) -> Result<Option<Reply>, ModelFault>
        ensures { IfOk result
            (λ refusal. refusal ≡ first (refusals limits self.now (Open session.now))) }
    {
        if self.sessions.contains_key(session) {
            return Ok(Some(Reply::SessionTaken {
                session: session.copy(self.alloc)?,
            }));
        }
        if self.sessions.len() >= limits.sessions as usize {
            return Ok(Some(Reply::SessionsFull {
                limit: limits.sessions,
            }));
        }
        Ok(None)
    }
}
