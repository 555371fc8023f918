//! What stops a check.
ghost use Rattle.std.specs.Prelude.{◌≡◌};
ghost use Rattle.hs_ops.specs.declared.stop.Stop.TheVariants.{NoMemory};

use hs_model::Reply;
use std::alloc::{AllocError, AllocFailed};

/// What stops the checks of an operation: a refusal, or that there is no memory to tell it.
#[derive(Debug, Drop)]
pub(crate) enum Stop {
    Refused(Reply),
    NoMemory,
}

impl From<AllocError> for Stop {
    ghost from_gives = { λ _ stop. stop ≡ NoMemory };

    fn from(_: AllocError) -> Stop {
        Stop::NoMemory
    }
}

impl<T: Drop> From<AllocFailed<T>> for Stop {
    ghost from_gives = { λ _ stop. stop ≡ NoMemory };

    fn from(_: AllocFailed<T>) -> Stop {
        Stop::NoMemory
    }
}
