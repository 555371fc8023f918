//! Why the copies of a store can't be compared, or copied.
ghost use Rattle.std.specs.Prelude.{◌≡◌};
ghost use Rattle.hs_scrub.specs.declared.fault.ScrubFault.TheVariants.{NoMemory};

use hs_side::Header;
use std::alloc::AllocError;
use thiserror::Error;

/// Why the copies of a store can't be compared, or copied.
#[derive(Clone, Copy, Debug, PartialEq, Eq, Error)]
pub enum ScrubFault {
    /// The disk of a peer is of a store of another shape, or of another peer.
    #[error("the disk of peer {peer} is of another store")]
    WrongShape { peer: u8, found: Header },
    /// There was not enough memory.
    #[error("out of memory")]
    NoMemory,
}

impl From<AllocError> for ScrubFault {
    ghost from_gives = { λ _ fault. fault ≡ NoMemory };

    fn from(_error: AllocError) -> ScrubFault {
        ScrubFault::NoMemory
    }
}
