//! Why a worker, a writer or the deleter stopped.
ghost use Rattle.std.specs.Prelude.{◌≡◌};
ghost use Rattle.hs_workers.specs.declared.fault.WorkFault.TheVariants.{NoMemory};

use hs_desk::CoreFault;
use std::alloc::AllocError;
use thiserror::Error;

/// Why a worker, a writer or the deleter stopped.
#[derive(Clone, Copy, Debug, PartialEq, Eq, Error)]
pub enum WorkFault {
    /// The book has ended.
    #[error("{fault}")]
    Core { fault: CoreFault },
    /// A job was to append or to seal the entry of the number `told`, where the log has `kept` next, 0 where
    /// it has none; `place` numbers had been stored before.
    #[error("number {told} is not the next one of the log, {kept}")]
    Torn { place: u64, told: u64, kept: u64 },
    /// There was not enough memory, or another of them stopped with a fault of its own.
    #[error("out of memory")]
    NoMemory,
}

impl From<AllocError> for WorkFault {
    ghost from_gives = { λ _ fault. fault ≡ NoMemory };

    fn from(_error: AllocError) -> WorkFault {
        WorkFault::NoMemory
    }
}
