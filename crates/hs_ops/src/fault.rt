//! Why a call on an operation fails.
use std::alloc::{AllocError, AllocFailed};
use thiserror::Error;

/// The only fault: there was no memory.
#[derive(Clone, Copy, Debug, PartialEq, Eq, Error)]
pub enum OpFault {
    #[error("out of memory")]
    NoMemory,
}

impl From<AllocError> for OpFault {
    fn from(_: AllocError) -> OpFault {
        OpFault::NoMemory
    }
}

impl<T: Drop> From<AllocFailed<T>> for OpFault {
    fn from(_: AllocFailed<T>) -> OpFault {
        OpFault::NoMemory
    }
}
