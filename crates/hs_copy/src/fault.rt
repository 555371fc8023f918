//! Why a root was not copied.
ghost use Rattle.std.specs.Prelude.{◌≡◌};
ghost use Rattle.hs_copy.specs.Faults.{IsFirst, IsSecond};
ghost use Rattle.hs_copy.specs.declared.fault.CopyFault.TheVariants.{NoMemory};
ghost use Rattle.hs_copy.specs.declared.fault.PartFault.TheVariants as part;

use hs_desk::CoreFault;
use hs_model::Reply;
use std::alloc::AllocError;
use thiserror::Error;

/// Why a root was not copied.
#[derive(Debug, Drop, Error)]
pub enum CopyFault {
    /// What was asked of the first store has ended, with this fault.
    #[error("the first store has ended")]
    First(CoreFault),
    /// What was asked of the second store has ended, with this fault.
    #[error("the second store has ended")]
    Second(CoreFault),
    /// An operation was refused, in the one store or in the other.
    #[error("refused")]
    Refused(Reply),
    /// The root reaches more than so many different addresses: 4,000.
    #[error("the root reaches more than {blocks} blocks")]
    CopyFull { blocks: u32 },
    /// There was not enough memory.
    #[error("out of memory")]
    NoMemory,
}

impl From<AllocError> for CopyFault {
    ghost from_gives = { λ _ fault. fault ≡ NoMemory };

    fn from(_error: AllocError) -> CopyFault {
        CopyFault::NoMemory
    }
}

/// Why what is asked of one of the stores came to no end.
#[derive(Debug, Drop, Error)]
pub(crate) enum PartFault {
    /// What was asked has ended, with this fault.
    #[error("the store has ended")]
    Core(CoreFault),
    /// An operation was refused.
    #[error("refused")]
    Refused(Reply),
    /// There are more different addresses than are copied.
    #[error("too many blocks")]
    TooMany,
    /// There was not enough memory.
    #[error("out of memory")]
    NoMemory,
}

impl From<AllocError> for PartFault {
    ghost from_gives = { λ _ fault. fault ≡ part.NoMemory };

    fn from(_error: AllocError) -> PartFault {
        PartFault::NoMemory
    }
}

/// A fault of what is asked of the first store.
pub(crate) fn in_first(fault: PartFault) -> CopyFault
    ensures { IsFirst fault result }
{
    match fault {
        PartFault::Core(core) => CopyFault::First(core),
        PartFault::Refused(told) => CopyFault::Refused(told),
        PartFault::TooMany => CopyFault::CopyFull { blocks: 4_000 },
        PartFault::NoMemory => CopyFault::NoMemory,
    }
}

/// A fault of what is asked of the second store, where nothing is too many.
pub(crate) fn in_second(fault: PartFault) -> CopyFault
    ensures { IsSecond fault result }
{
    match fault {
        PartFault::Core(core) => CopyFault::Second(core),
        PartFault::Refused(told) => CopyFault::Refused(told),
        PartFault::TooMany | PartFault::NoMemory => CopyFault::NoMemory,
    }
}
