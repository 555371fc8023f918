//! What a round tells one shard.
ghost use Rattle.std.specs.Prelude.{◌≡◌, IfOk};

use hs_limits::{Delta, ListOf};
use std::alloc::{AllocError, Global};

/// What a sender tells one shard in one round: the total of the round, and how the counts of the
/// shard's blocks change.
#[derive(Debug, Drop)]
pub struct RoundBody {
    pub total: u32,
    pub deltas: ListOf<Delta>,
}

impl RoundBody {
    /// The same again.
    pub fn copy(&self, alloc: Global) -> Result<RoundBody, AllocError>
        ensures { IfOk result (λ body. body ≡ self.now) }
    {
        Ok(RoundBody {
            total: self.total,
            deltas: self.deltas.copy(alloc)?,
        })
    }
}
