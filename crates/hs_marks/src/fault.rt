//! Why a mark is not set.
ghost use Rattle.std.specs.Prelude.{◌≡◌};
ghost use Rattle.hs_marks.specs.declared.fault.MarkFault.TheVariants.{NoMemory};

use std::alloc::AllocFailed;
use thiserror::Error;

/// The only fault: there is no memory.
#[derive(Clone, Copy, Debug, PartialEq, Eq, Error)]
pub enum MarkFault {
    #[error("out of memory")]
    NoMemory,
}

impl<T: Drop> From<AllocFailed<T>> for MarkFault {
    ghost from_gives = { λ _ fault. fault ≡ NoMemory };

    fn from(_error: AllocFailed<T>) -> MarkFault {
        MarkFault::NoMemory
    }
}
