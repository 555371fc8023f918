//! Why a call on a side fails.
ghost use Rattle.std.specs.Prelude.{◌≡◌};
ghost use Rattle.hs_side.specs.declared.fault.SideFault.TheVariants.{NoMemory};
ghost use Rattle.hs_side.specs.Caused.{of_port};

use hs_ports::PortFault;
use std::alloc::{AllocError, AllocFailed};
use thiserror::Error;

/// Why a call on a side fails.
#[derive(Clone, Copy, Debug, PartialEq, Eq, Error)]
pub enum SideFault {
    /// The side is not blank and not a log: the first place that is wrong.
    #[error("the side is no log, from byte {at} on")]
    NotALog { at: u64 },
    /// The disk failed. The side must be opened again.
    #[error("the disk failed")]
    Disk,
    /// There was not enough memory.
    #[error("out of memory")]
    NoMemory,
}

impl From<PortFault> for SideFault {
    ghost from_gives = { λ port fault. fault ≡ of_port port };

    fn from(port: PortFault) -> SideFault {
        match port {
            PortFault::Failed => SideFault::Disk,
            PortFault::NoMemory => SideFault::NoMemory,
        }
    }
}

impl From<AllocError> for SideFault {
    ghost from_gives = { λ _ fault. fault ≡ NoMemory };

    fn from(_error: AllocError) -> SideFault {
        SideFault::NoMemory
    }
}

impl<T: Drop> From<AllocFailed<T>> for SideFault {
    ghost from_gives = { λ _ fault. fault ≡ NoMemory };

    fn from(_error: AllocFailed<T>) -> SideFault {
        SideFault::NoMemory
    }
}
