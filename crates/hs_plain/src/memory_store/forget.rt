//! Forgetting a handle of the plain store.
ghost use Rattle.std.specs.Prelude.{◌≡◌, ◌∷◌, [], IfOk, OnOk};
ghost use Rattle.hs_limits.specs.declared.limits.Limits.{Limits};
ghost use Rattle.hs_model.specs.declared.op.Op.TheVariants.{Forget};
ghost use Rattle.hs_model.specs.Judge.{judge, forgot};
ghost use Rattle.hs_model.specs.Refusals.{first, no_session, no_handle};

use super::MemoryStore;
use crate::Answer;
use hs_limits::Name;
use hs_model::{Asked, Deed, ModelFault, Reply};

impl MemoryStore {
    /// A session gives up a handle.
    pub(super) fn forget(&mut self, session: Name, handle: u32) -> Result<Answer, ModelFault>
        ensures reply { IfOk result (λ answer. (limits : Limits)
            → answer.reply ≡ (judge limits self.old (Forget session handle)).reply) }
        ensures deed { IfOk result (λ answer. (limits : Limits)
            → answer.deed ≡ (judge limits self.old (Forget session handle)).deed) }
        ensures store { OnOk result ((limits : Limits)
            → self.new ≡ (judge limits self.old (Forget session handle)).store) }
    {
        if let Some(refusal) = self.not_held(&session, handle)? {
            return Ok(Answer::refused(refusal, Asked::Forget { session, handle }));
        }
        Ok(self.grant_forget(session, handle))
    }

    /// The refusal where a session is not open or does not hold a handle.
    pub(super) fn not_held(&self, session: &Name, handle: u32) -> Result<Option<Reply>, ModelFault>
        ensures { IfOk result (λ refusal. refusal
            ≡ first (no_session self.now session.now
            ∷ no_handle self.now session.now (handle ∷ [])
            ∷ [])) }
    {
        let Some(seat) = self.sessions.get(session) else {
            return Ok(Some(Reply::NoSession {
                session: session.copy(self.alloc)?,
            }));
        };
        Ok(seat.no_handle(&[handle]))
    }

    /// Does what forgetting does that is not refused.
    fn grant_forget(&mut self, session: Name, handle: u32) -> Answer
        ensures reply { result.reply ≡ (forgot self.old session handle).reply }
        ensures deed { result.deed ≡ (forgot self.old session handle).deed }
        ensures store { self.new ≡ (forgot self.old session handle).store }
    {
        if let Some(seat) = self.sessions.get_mut(&session) {
            seat.forget(handle);
        }
        Answer {
            reply: Reply::Ok,
            deed: Deed::Forgot { session, handle },
        }
    }
}
