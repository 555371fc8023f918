//! Beginning a deletion run of the plain store.
ghost use Rattle.std.specs.Prelude.{◌≡◌, ◌<◌, length, IfOk, OnOk};
ghost use Rattle.hs_model.specs.declared.op.Op.TheVariants.{Delete};
ghost use Rattle.hs_model.specs.Judge.{judge, refusals};
ghost use Rattle.hs_model.specs.Refusals.{first};

use super::MemoryStore;
use crate::Answer;
use hs_limits::Limits;
use hs_model::{Asked, Deed, ModelFault, Reply};

impl MemoryStore {
    /// Begins a deletion run: shard 0 enters its next epoch.
    pub(super) fn delete(&mut self, limits: Limits) -> Result<Answer, ModelFault>
        ensures reply { IfOk result
            (λ answer. answer.reply ≡ (judge limits self.old Delete).reply) }
        ensures deed { IfOk result
            (λ answer. answer.deed ≡ (judge limits self.old Delete).deed) }
        ensures store { OnOk result (self.new ≡ (judge limits self.old Delete).store) }
    {
        if let Some(refusal) = self.delete_refusal(limits) {
            return Ok(Answer::refused(refusal, Asked::Delete));
        }
        let epoch = self.advance(0)?;
        Ok(Answer {
            reply: Reply::Run { epoch },
            deed: Deed::Entered { shard: 0 },
        })
    }

    /// Why no run begins, if none does.
    #[tactic(auto, unfolding(hs_model::specs::Judge::refusals))]
    pub(super) fn delete_refusal(&self, limits: Limits) -> Option<Reply>
        ensures value { result ≡ first (refusals limits self.now Delete) }
        ensures shards { 0 < length self.now.epochs }
    {
        let epoch = self.epochs[0];
        if self.swept[0] < epoch {
            return Some(Reply::Running { epoch });
        }
        if epoch >= limits.epochs {
            return Some(Reply::EpochEnd {
                limit: limits.epochs,
            });
        }
        None
    }
}
