//! Why a call on a catalogue fails.
ghost use Rattle.std.specs.Prelude.{◌≡◌};
ghost use Rattle.hs_shard.specs.declared.fault.ShardFault.TheVariants.{NoMemory};

use hs_roots::RootFault;
use hs_rounds::RunFault;
use std::alloc::{AllocError, AllocFailed};
use thiserror::Error;

/// The only fault: there is no memory.
#[derive(Clone, Copy, Debug, PartialEq, Eq, Error)]
pub enum ShardFault {
    #[error("out of memory")]
    NoMemory,
}

impl From<AllocError> for ShardFault {
    ghost from_gives = { λ _ fault. fault ≡ NoMemory };

    fn from(_error: AllocError) -> ShardFault {
        ShardFault::NoMemory
    }
}

impl<T: Drop> From<AllocFailed<T>> for ShardFault {
    ghost from_gives = { λ _ fault. fault ≡ NoMemory };

    fn from(_error: AllocFailed<T>) -> ShardFault {
        ShardFault::NoMemory
    }
}

impl From<RunFault> for ShardFault {
    ghost from_gives = { λ _ fault. fault ≡ NoMemory };

    fn from(_error: RunFault) -> ShardFault {
        ShardFault::NoMemory
    }
}

impl From<RootFault> for ShardFault {
    ghost from_gives = { λ _ fault. fault ≡ NoMemory };

    /// Of a call on the roots whose only fault is NoMemory.
    fn from(_error: RootFault) -> ShardFault {
        ShardFault::NoMemory
    }
}
