//! Dropping a root of the plain store.
ghost use Rattle.std.specs.Prelude.{◌≡◌, IfOk, OnOk};
ghost use Rattle.hs_limits.specs.declared.limits.Limits.{Limits};
ghost use Rattle.hs_model.specs.declared.op.Op.TheVariants.{Drop};
ghost use Rattle.hs_model.specs.Judge.{judge};
ghost use Rattle.hs_model.specs.Refusals.{no_key};

use super::MemoryStore;
use crate::Answer;
use hs_limits::Key;
use hs_model::{Asked, Deed, ModelFault, Reply};

impl MemoryStore {
    /// Drops the root of a key in the epoch of its shard.
    pub(super) fn drop_root(&mut self, key: Key) -> Result<Answer, ModelFault>
        ensures reply { IfOk result (λ answer. (limits : Limits)
            → answer.reply ≡ (judge limits self.old (Drop key)).reply) }
        ensures deed { IfOk result (λ answer. (limits : Limits)
            → answer.deed ≡ (judge limits self.old (Drop key)).deed) }
        ensures store { OnOk result ((limits : Limits)
            → self.new ≡ (judge limits self.old (Drop key)).store) }
    {
        if let Some(refusal) = self.no_key(&key)? {
            return Ok(Answer::refused(refusal, Asked::Drop { key }));
        }
        let epoch = self.root_epoch(&key);
        self.roots.drop_key(&key, epoch)?;
        Ok(Answer {
            reply: Reply::Ok,
            deed: Deed::Dropped { key },
        })
    }

    /// The refusal where a key is not retained.
    pub(super) fn no_key(&self, key: &Key) -> Result<Option<Reply>, ModelFault>
        ensures { IfOk result (λ refusal. refusal ≡ no_key self.now key.now) }
    {
        if self.roots.retained(key).is_some() {
            return Ok(None);
        }
        Ok(Some(Reply::NoKey {
            key: key.copy(self.alloc)?,
        }))
    }
}
