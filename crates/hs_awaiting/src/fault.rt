//! Why a call on the operations gives up.
use hs_ops::OpFault;
use std::alloc::{AllocError, AllocFailed};
use thiserror::Error;

/// Why a call on the operations gives up.
#[derive(Clone, Copy, Debug, PartialEq, Eq, Error)]
pub enum AwaitingFault {
    /// There was not enough memory, or a line has no next one.
    #[error("out of memory")]
    NoMemory,
}

impl From<AllocError> for AwaitingFault {
    fn from(_error: AllocError) -> AwaitingFault {
        AwaitingFault::NoMemory
    }
}

impl<T: Drop> From<AllocFailed<T>> for AwaitingFault {
    fn from(_error: AllocFailed<T>) -> AwaitingFault {
        AwaitingFault::NoMemory
    }
}

impl From<OpFault> for AwaitingFault {
    fn from(_fault: OpFault) -> AwaitingFault {
        AwaitingFault::NoMemory
    }
}
