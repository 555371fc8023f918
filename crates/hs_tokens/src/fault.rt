//! Why a call on the sessions is refused.
ghost use Rattle.std.specs.Prelude.{◌≡◌};
ghost use Rattle.hs_tokens.specs.declared.fault.SeatFault.TheVariants.{NoMemory};

use std::alloc::{AllocError, AllocFailed};
use thiserror::Error;

/// Why a session is not opened, closed or looked at, or there is no memory.
#[derive(Clone, Copy, Debug, PartialEq, Eq, Error)]
pub enum SeatFault {
    #[error("the session is not open")]
    NoSession,
    #[error("the session is open already")]
    SessionTaken,
    #[error("{limit} sessions are open")]
    SessionsFull { limit: u32 },
    #[error("the session does not hold that handle")]
    NoHandle,
    #[error("the session holds {limit} handles")]
    HandlesFull { limit: u32 },
    #[error("out of memory")]
    NoMemory,
}

impl From<AllocError> for SeatFault {
    ghost from_gives = { λ _ fault. fault ≡ NoMemory };

    fn from(_error: AllocError) -> SeatFault {
        SeatFault::NoMemory
    }
}

impl<T: Drop> From<AllocFailed<T>> for SeatFault {
    ghost from_gives = { λ _ fault. fault ≡ NoMemory };

    fn from(_error: AllocFailed<T>) -> SeatFault {
        SeatFault::NoMemory
    }
}
