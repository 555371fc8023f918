//! Why a cluster can't go on.
ghost use Rattle.std.specs.Prelude.{◌≡◌};
ghost use Rattle.hs_cluster.specs.Calls.{of_core};
ghost use Rattle.hs_cluster.specs.declared.fault.ClusterFault.TheVariants.{NoMemory};

use hs_desk::CoreFault;
use hs_side::Header;
use std::alloc::AllocError;
use thiserror::Error;

/// Why a cluster can't go on.
#[derive(Clone, Copy, Debug, PartialEq, Eq, Error)]
pub enum ClusterFault {
    /// The disk of a peer is of a store of another shape, or of another peer.
    #[error("the disk of peer {peer} is of another store")]
    WrongShape { peer: u8, found: Header },
    /// The shard has no good peer.
    #[error("shard {shard} has no good peer")]
    ShardLost { shard: u8 },
    /// The entries of the next event would take the journal above its limit.
    #[error("the journal is full")]
    OpsFull,
    /// There was not enough memory.
    #[error("out of memory")]
    NoMemory,
}

impl From<CoreFault> for ClusterFault {
    ghost from_gives = { λ core fault. fault ≡ of_core core };

    fn from(core: CoreFault) -> ClusterFault {
        match core {
            CoreFault::OpsFull => ClusterFault::OpsFull,
            CoreFault::ShardLost { shard } => ClusterFault::ShardLost { shard },
            CoreFault::NoMemory => ClusterFault::NoMemory,
        }
    }
}

impl From<AllocError> for ClusterFault {
    ghost from_gives = { λ _ fault. fault ≡ NoMemory };

    fn from(_error: AllocError) -> ClusterFault {
        ClusterFault::NoMemory
    }
}

impl From<hs_events::NoMemory> for ClusterFault {
    ghost from_gives = { λ _ fault. fault ≡ NoMemory };

    fn from(_error: hs_events::NoMemory) -> ClusterFault {
        ClusterFault::NoMemory
    }
}
