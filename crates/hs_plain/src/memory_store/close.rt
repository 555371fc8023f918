//! Closing a session of the plain store.
ghost use Rattle.std.specs.Prelude.{◌≡◌, ◌∷◌, [], IfOk, OnOk};
ghost use Rattle.hs_limits.specs.declared.limits.Limits.{Limits};
ghost use Rattle.hs_model.specs.declared.op.Op.TheVariants.{Close};
ghost use Rattle.hs_model.specs.Judge.{judge};
ghost use Rattle.hs_model.specs.Refusals.{first, no_session};

use super::MemoryStore;
use crate::Answer;
use hs_limits::Name;
use hs_model::{Asked, Deed, ModelFault, Reply};

impl MemoryStore {
    /// Closes a session, and gives up what it holds.
    pub(super) fn close(&mut self, session: Name) -> Result<Answer, ModelFault>
        ensures reply { IfOk result (λ answer. (limits : Limits)
            → answer.reply ≡ (judge limits self.old (Close session)).reply) }
        ensures deed { IfOk result (λ answer. (limits : Limits)
            → answer.deed ≡ (judge limits self.old (Close session)).deed) }
        ensures store { OnOk result ((limits : Limits)
            → self.new ≡ (judge limits self.old (Close session)).store) }
    {
        if let Some(refusal) = self.close_refusal(&session)? {
            return Ok(Answer::refused(refusal, Asked::Close { session }));
        }
        self.sessions.remove(&session);
        Ok(Answer {
            reply: Reply::Ok,
            deed: Deed::Closed { session },
        })
    }

    /// Why a session is not closed, if it is not.
    pub(super) fn close_refusal(&self, session: &Name) -> Result<Option<Reply>, ModelFault>
        ensures { IfOk result
            (λ refusal. refusal ≡ first (no_session self.now session.now ∷ [])) }
    {
        if self.sessions.contains_key(session) {
            return Ok(None);
        }
        Ok(Some(Reply::NoSession {
            session: session.copy(self.alloc)?,
        }))
    }
}
