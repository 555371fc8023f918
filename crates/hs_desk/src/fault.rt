//! Why a core has ended.
ghost use Rattle.std.specs.Prelude.{◌≡◌};
ghost use Rattle.hs_desk.specs.declared.fault.CoreFault.TheVariants.{NoMemory};

use std::alloc::AllocError;
use thiserror::Error;

/// Why a core has ended.
#[derive(Clone, Copy, Debug, PartialEq, Eq, Error)]
pub enum CoreFault {
    /// The entries of the next event would take the journal above its limit.
    #[error("the journal is full")]
    OpsFull,
    /// The shard has no good peer.
    #[error("shard {shard} has no good peer")]
    ShardLost { shard: u8 },
    /// There was not enough memory.
    #[error("out of memory")]
    NoMemory,
}

impl From<AllocError> for CoreFault {
    ghost from_gives = { λ _ fault. fault ≡ NoMemory };

    fn from(_error: AllocError) -> CoreFault {
        CoreFault::NoMemory
    }
}
