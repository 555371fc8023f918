//! Why a message is not handed out or not sent again.
ghost use Rattle.std.specs.Prelude.{◌≡◌};
ghost use Rattle.hs_post.specs.declared.fault.PostFault.TheVariants.{NoMemory};

use std::alloc::AllocError;
use thiserror::Error;

/// Why a message is not handed out or not sent again.
#[derive(Clone, Copy, Debug, PartialEq, Eq, Error)]
pub enum PostFault {
    /// No message in the pool has that number.
    #[error("no message has that number")]
    NoMessage,
    /// The pool holds as many messages as its limit.
    #[error("the pool holds {limit} messages, its limit")]
    PoolFull { limit: u32 },
    /// There was not enough memory, or there is no next number.
    #[error("out of memory")]
    NoMemory,
}

impl From<AllocError> for PostFault {
    ghost from_gives = { λ _ fault. fault ≡ NoMemory };

    fn from(_error: AllocError) -> PostFault {
        PostFault::NoMemory
    }
}
