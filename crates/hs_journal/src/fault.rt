//! Why the journal takes no entry.
use thiserror::Error;

/// The journal is at its limit, or there is no memory.
#[derive(Clone, Copy, Debug, PartialEq, Eq, Error)]
pub enum JournalFault {
    #[error("the journal is full")]
    OpsFull,
    #[error("out of memory")]
    NoMemory,
}
