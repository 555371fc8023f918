//! Counting what is in the plain store.
ghost use Rattle.std.specs.Prelude.{◌≡◌, IfOk};
ghost use Rattle.hs_limits.specs.declared.limits.Limits.{Limits};
ghost use Rattle.hs_model.specs.declared.op.Op.TheVariants.{Stat};
ghost use Rattle.hs_model.specs.Judge.{judge};

use super::MemoryStore;
use crate::Answer;
use hs_limits::ListOf;
use hs_model::{Deed, ModelFault, Reply};

impl MemoryStore {
    /// Counts the store, which stays.
    pub(super) fn stat(&self) -> Result<Answer, ModelFault>
        ensures reply { IfOk result (λ answer. (limits : Limits)
            → answer.reply ≡ (judge limits self.now Stat).reply) }
        ensures deed { IfOk result (λ answer. (limits : Limits)
            → answer.deed ≡ (judge limits self.now Stat).deed) }
        ensures same { IfOk result (λ answer. (limits : Limits)
            → (judge limits self.now Stat).store ≡ self.now) }
    {
        let Ok(sessions) = u32::try_from(self.sessions.len()) else {
            return Err(ModelFault::NoMemory);
        };
        Ok(Answer {
            reply: Reply::Stat {
                blocks: self.blocks.as_map().len() as u64,
                roots: self.roots.retained_count() as u64,
                sessions,
                epochs: ListOf::from_vec(Vec::from_slice(self.alloc, self.epochs.as_slice())?),
                swept: ListOf::from_vec(Vec::from_slice(self.alloc, self.swept.as_slice())?),
            },
            deed: Deed::Nothing,
        })
    }
}
