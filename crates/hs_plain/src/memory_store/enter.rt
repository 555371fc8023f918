//! Entering an epoch of the plain store.
ghost use Rattle.std.specs.Prelude.{◌≡◌, ◌+◌, ◌<◌, length, slice_index, IsTrue, IfOk, OnOk};
ghost use Rattle.hs_limits.specs.declared.limits.Limits.{Limits};
ghost use Rattle.hs_model.specs.Inner.{none_below, may_enter, enter};
ghost use Rattle.hs_model.specs.Run.{step, enters};

use super::MemoryStore;
use crate::Answer;
use hs_model::{Deed, ModelFault, Reply};

impl MemoryStore {
    /// Whether there is such a shard, and it may enter its next epoch.
    pub fn may_enter(&self, shard: u8) -> bool
        ensures found { IsTrue result
            → (shard < length self.now.epochs) × IsTrue (may_enter self.now shard) }
        ensures only { shard < length self.now.epochs
            → IsTrue (may_enter self.now shard) → IsTrue result }
    {
        if usize::from(shard) >= self.epochs.len() {
            return false;
        }
        self.is_ready(shard)
    }

    /// Whether a shard has swept its epoch, no shard is behind it, and shard 0 is before it.
    fn is_ready(&self, shard: u8) -> bool
        requires { shard < length self.now.epochs }
        ensures { result ≡ may_enter self.now shard }
    {
        let shard = usize::from(shard);
        let epoch = self.epochs[shard];
        self.swept[shard] == epoch
            && self.none_below(epoch)
            && (shard == 0 || self.epochs[0].checked_sub(1) == Some(epoch))
    }

    /// A shard enters its next epoch, and the roots that count in no epoch any more go. The only
    /// fault is NoMemory, also where an epoch has no next one; after it nothing is said of the
    /// store.
    pub fn enter(&mut self, shard: u8) -> Result<Answer, ModelFault>
        requires shard { shard < length self.old.epochs }
        requires may { IsTrue (may_enter self.old shard) }
        ensures reply { IfOk result (λ answer. (limits : Limits)
            → answer.reply ≡ (step limits self.old (enters shard)).reply) }
        ensures deed { IfOk result (λ answer. (limits : Limits)
            → answer.deed ≡ (step limits self.old (enters shard)).deed) }
        ensures store { OnOk result (self.new ≡ enter self.old shard) }
    {
        let epoch = self.advance(shard)?;
        Ok(Answer {
            reply: Reply::Enter { epoch },
            deed: Deed::Entered { shard },
        })
    }

    /// Raises the epoch of a shard, and gives the new one.
    pub(super) fn advance(&mut self, shard: u8) -> Result<u64, ModelFault>
        requires { shard < length self.old.epochs }
        ensures epoch { IfOk result (λ epoch. epoch ≡ slice_index self.new.epochs shard) }
        ensures next { IfOk result (λ epoch. epoch ≡ slice_index self.old.epochs shard + 1) }
        ensures store { OnOk result (self.new ≡ enter self.old shard) }
    {
        let shard = usize::from(shard);
        let Some(epoch) = self.epochs[shard].checked_add(1) else {
            return Err(ModelFault::NoMemory);
        };
        self.epochs[shard] = epoch;
        self.roots.keep_counting(self.epochs.as_slice());
        Ok(epoch)
    }

    /// Whether no shard's epoch is below this.
    pub(super) fn none_below(&self, epoch: u64) -> bool
        ensures { result ≡ none_below self.now epoch }
    {
        self.epochs.iter().all(|other| epoch <= *other)
    }
}
