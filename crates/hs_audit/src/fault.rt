//! Why an audit can't be given.
ghost use Rattle.std.specs.Prelude.{◌≡◌};
ghost use Rattle.hs_audit.specs.declared.fault.AuditFault.TheVariants.{NoMemory};

use hs_model::ModelFault;
use hs_side::Header;
use std::alloc::{AllocError, AllocFailed};
use thiserror::Error;

/// Why an audit can't be given.
#[derive(Clone, Copy, Debug, PartialEq, Eq, Error)]
pub enum AuditFault {
    /// The disk of a peer is of a store of another shape, or of another peer.
    #[error("the disk of peer {peer} is of another store")]
    WrongShape { peer: u8, found: Header },
    /// No disk of a shard could be read as a log.
    #[error("shard {shard} has no log")]
    ShardLost { shard: u8 },
    /// There was not enough memory.
    #[error("out of memory")]
    NoMemory,
}

impl From<AllocError> for AuditFault {
    ghost from_gives = { λ _ fault. fault ≡ NoMemory };

    fn from(_error: AllocError) -> AuditFault {
        AuditFault::NoMemory
    }
}

impl<T: Drop> From<AllocFailed<T>> for AuditFault {
    ghost from_gives = { λ _ fault. fault ≡ NoMemory };

    fn from(_error: AllocFailed<T>) -> AuditFault {
        AuditFault::NoMemory
    }
}

impl From<ModelFault> for AuditFault {
    ghost from_gives = { λ _ fault. fault ≡ NoMemory };

    fn from(_error: ModelFault) -> AuditFault {
        AuditFault::NoMemory
    }
}
