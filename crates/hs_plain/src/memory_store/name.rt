//! Telling the address of a handle of the plain store.
ghost use Rattle.std.specs.Prelude.{◌≡◌, IfOk};
ghost use Rattle.hs_limits.specs.declared.limits.Limits.{Limits};
ghost use Rattle.hs_model.specs.declared.op.Op.TheVariants as op;
ghost use Rattle.hs_model.specs.Judge.{judge};

use super::MemoryStore;
use crate::Answer;
use hs_limits::Name;
use hs_model::{Asked, Deed, ModelFault, Reply};

impl MemoryStore {
    /// Tells the address that a handle stands for. The store stays.
    pub(super) fn name(&self, session: Name, handle: u32) -> Result<Answer, ModelFault>
        ensures reply { IfOk result (λ answer. (limits : Limits)
            → answer.reply ≡ (judge limits self.now (op.Name session handle)).reply) }
        ensures deed { IfOk result (λ answer. (limits : Limits)
            → answer.deed ≡ (judge limits self.now (op.Name session handle)).deed) }
        ensures same { IfOk result (λ answer. (limits : Limits)
            → (judge limits self.now (op.Name session handle)).store ≡ self.now) }
    {
        if let Some(refusal) = self.not_held(&session, handle)? {
            return Ok(Answer::refused(refusal, Asked::Name { session, handle }));
        }
        let address = self.held_or(&session, handle).address;
        Ok(Answer {
            reply: Reply::Name { address },
            deed: Deed::Nothing,
        })
    }
}
