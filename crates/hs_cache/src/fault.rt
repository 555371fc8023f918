//! Why nothing is put into a cache.
ghost use Rattle.std.specs.Prelude.{◌≡◌};
ghost use Rattle.hs_cache.specs.declared.fault.CacheFault.TheVariants.{NoMemory};

use std::alloc::{AllocError, AllocFailed};
use thiserror::Error;

/// The only fault: there is no memory.
#[derive(Clone, Copy, Debug, PartialEq, Eq, Error)]
pub enum CacheFault {
    #[error("out of memory")]
    NoMemory,
}

impl From<AllocError> for CacheFault {
    ghost from_gives = { λ _ fault. fault ≡ NoMemory };

    fn from(_error: AllocError) -> CacheFault {
        CacheFault::NoMemory
    }
}

impl<T: Drop> From<AllocFailed<T>> for CacheFault {
    ghost from_gives = { λ _ fault. fault ≡ NoMemory };

    fn from(_error: AllocFailed<T>) -> CacheFault {
        CacheFault::NoMemory
    }
}
