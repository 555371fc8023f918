//! Why a run did not come to its end.
use hs_block::BlockFault;
use hs_cluster::ClusterFault;
use hs_desk::CoreFault;
use hs_workers::WorkFault;
use std::alloc::AllocError;
use thiserror::Error;

/// Why a run did not come to its end.
#[derive(Clone, Copy, Debug, PartialEq, Eq, Error)]
pub(crate) enum RunFault {
    /// The cluster could not go on.
    #[error("{fault}")]
    Cluster { fault: ClusterFault },
    /// The core has ended.
    #[error("{fault}")]
    Core { fault: CoreFault },
    /// A job was not done.
    #[error("{fault}")]
    Work { fault: WorkFault },
    /// Workers went on for more turns than any run here has.
    #[error("workers are still at work")]
    Restless,
    /// No book may be opened of the core, or no cluster goes on from it.
    #[error("nothing goes on from this core")]
    Unfit,
    /// The run of the script had another end than Done.
    #[error("the script was not done")]
    NotDone,
    /// There was not enough memory.
    #[error("out of memory")]
    NoMemory,
}

impl From<AllocError> for RunFault {
    fn from(_error: AllocError) -> RunFault {
        RunFault::NoMemory
    }
}

impl From<BlockFault> for RunFault {
    fn from(_error: BlockFault) -> RunFault {
        RunFault::NoMemory
    }
}

impl From<ClusterFault> for RunFault {
    fn from(fault: ClusterFault) -> RunFault {
        RunFault::Cluster { fault }
    }
}

impl From<CoreFault> for RunFault {
    fn from(fault: CoreFault) -> RunFault {
        RunFault::Core { fault }
    }
}

impl From<WorkFault> for RunFault {
    fn from(fault: WorkFault) -> RunFault {
        RunFault::Work { fault }
    }
}
