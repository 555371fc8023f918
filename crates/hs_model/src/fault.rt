//! Why a call of the model fails.
ghost use Rattle.std.specs.Prelude.{◌≡◌};

use std::alloc::{AllocError, AllocFailed};
use thiserror::Error;

/// The only fault: there was no memory.
#[derive(Clone, Copy, Debug, Error)]
pub enum ModelFault {
    #[error("out of memory")]
    NoMemory,
}

impl From<AllocError> for ModelFault {
    fn from(_: AllocError) -> ModelFault {
        ModelFault::NoMemory
    }
}

impl<T: Drop> From<AllocFailed<T>> for ModelFault {
    fn from(_: AllocFailed<T>) -> ModelFault {
        ModelFault::NoMemory
    }
}
