//! Why a call on the roots is refused.
ghost use Rattle.std.specs.Prelude.{◌≡◌};
ghost use Rattle.hs_roots.specs.declared.fault.RootFault.TheVariants.{NoMemory};

use std::alloc::{AllocError, AllocFailed};
use thiserror::Error;

/// Why a root is not put or dropped, or there is no memory.
#[derive(Clone, Copy, Debug, PartialEq, Eq, Error)]
pub enum RootFault {
    #[error("the key is retained with another address")]
    KeyTaken,
    #[error("the key is not retained")]
    NoKey,
    #[error("{limit} roots are retained")]
    RootsFull { limit: u32 },
    #[error("out of memory")]
    NoMemory,
}

impl From<AllocError> for RootFault {
    ghost from_gives = { λ _ fault. fault ≡ NoMemory };

    fn from(_error: AllocError) -> RootFault {
        RootFault::NoMemory
    }
}

impl<T: Drop> From<AllocFailed<T>> for RootFault {
    ghost from_gives = { λ _ fault. fault ≡ NoMemory };

    fn from(_error: AllocFailed<T>) -> RootFault {
        RootFault::NoMemory
    }
}
