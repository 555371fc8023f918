//! Why no entry was read, or nothing was written.
ghost use Rattle.std.specs.Prelude.{◌≡◌};
ghost use Rattle.hs_entry.specs.declared.fault.EntryFault.TheVariants.{NoMemory};

use std::alloc::{AllocError, AllocFailed};
use thiserror::Error;

/// Why no entry was read, or nothing was written.
#[derive(Clone, Copy, Debug, PartialEq, Eq, Error)]
pub enum EntryFault {
    /// The input ends inside a field, at `at`.
    #[error("the entry ends inside a field, at byte {at}")]
    Short { at: u64 },
    /// The first byte is none of a kind that is read.
    #[error("no kind of entry is {found}")]
    BadKind { found: u8 },
    /// A field breaks its bound: its first byte.
    #[error("the field at byte {at} is out of bounds")]
    BadField { at: u64 },
    /// The entry ends before the input does: the place of the first byte behind it.
    #[error("the entry ends before byte {at}")]
    Trailing { at: u64 },
    /// There was not enough memory.
    #[error("out of memory")]
    NoMemory,
}

impl From<AllocError> for EntryFault {
    ghost from_gives = { λ _ fault. fault ≡ NoMemory };

    fn from(_error: AllocError) -> EntryFault {
        EntryFault::NoMemory
    }
}

impl<T: Drop> From<AllocFailed<T>> for EntryFault {
    ghost from_gives = { λ _ fault. fault ≡ NoMemory };

    fn from(_error: AllocFailed<T>) -> EntryFault {
        EntryFault::NoMemory
    }
}
