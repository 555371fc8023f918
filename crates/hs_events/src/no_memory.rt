//! There is no memory.
use std::alloc::AllocError;
use thiserror::Error;

/// There is no memory: the only way in which a call of this crate fails.
#[derive(Clone, Copy, Debug, PartialEq, Eq, Error)]
#[error("out of memory")]
pub struct NoMemory;

impl From<AllocError> for NoMemory {
    fn from(_error: AllocError) -> NoMemory {
        NoMemory
    }
}
