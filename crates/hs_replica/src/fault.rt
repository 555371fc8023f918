//! Why a call on a group gives up.
ghost use Rattle.std.specs.Prelude.{◌≡◌};
ghost use Rattle.hs_replica.specs.declared.fault.GroupFault.TheVariants.{NoMemory};

use hs_post::PostFault;
use std::alloc::{AllocError, AllocFailed};
use thiserror::Error;

/// Why a call on a group gives up.
#[derive(Clone, Copy, Debug, PartialEq, Eq, Error)]
pub enum GroupFault {
    /// There was not enough memory, or there is no next number.
    #[error("out of memory")]
    NoMemory,
}

impl From<AllocError> for GroupFault {
    ghost from_gives = { λ _ fault. fault ≡ NoMemory };

    fn from(_error: AllocError) -> GroupFault {
        GroupFault::NoMemory
    }
}

impl<T: Drop> From<AllocFailed<T>> for GroupFault {
    ghost from_gives = { λ _ fault. fault ≡ NoMemory };

    fn from(_error: AllocFailed<T>) -> GroupFault {
        GroupFault::NoMemory
    }
}

impl From<PostFault> for GroupFault {
    ghost from_gives = { λ _ fault. fault ≡ NoMemory };

    fn from(_error: PostFault) -> GroupFault {
        GroupFault::NoMemory
    }
}
