//! Why a call on the counts fails.
ghost use Rattle.std.specs.Prelude.{◌≡◌};
ghost use Rattle.hs_counts.specs.declared.fault.CountFault.TheVariants.{NoMemory};

use std::alloc::{AllocError, AllocFailed};
use thiserror::Error;

/// The only fault: there is no memory.
#[derive(Clone, Copy, Debug, PartialEq, Eq, Error)]
pub enum CountFault {
    #[error("out of memory")]
    NoMemory,
}

impl From<AllocError> for CountFault {
    ghost from_gives = { λ _ fault. fault ≡ NoMemory };

    fn from(_error: AllocError) -> CountFault {
        CountFault::NoMemory
    }
}

impl<T: Drop> From<AllocFailed<T>> for CountFault {
    ghost from_gives = { λ _ fault. fault ≡ NoMemory };

    fn from(_error: AllocFailed<T>) -> CountFault {
        CountFault::NoMemory
    }
}
