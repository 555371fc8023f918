//! Why the logs of a store can't be taken.
ghost use Rattle.std.specs.Prelude.{◌≡◌};
ghost use Rattle.hs_taking.specs.declared.fault.TakeFault.TheVariants.{NoMemory};

use hs_side::Header;
use std::alloc::AllocError;
use thiserror::Error;

/// Why the logs of a store can't be taken.
#[derive(Clone, Copy, Debug, PartialEq, Eq, Error)]
pub enum TakeFault {
    /// The disk of a peer is of a store of another shape, or of another peer.
    #[error("the disk of peer {peer} is of another store")]
    WrongShape { peer: u8, found: Header },
    /// There was not enough memory.
    #[error("out of memory")]
    NoMemory,
}

impl From<AllocError> for TakeFault {
    ghost from_gives = { λ _ fault. fault ≡ NoMemory };

    fn from(_error: AllocError) -> TakeFault {
        TakeFault::NoMemory
    }
}
