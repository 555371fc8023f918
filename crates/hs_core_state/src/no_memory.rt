//! There is no memory: the only way in which a part of an event fails.
use hs_awaiting::AwaitingFault;
use hs_members::MemberFault;
use hs_ops::OpFault;
use hs_replica::GroupFault;
use hs_shard::ShardFault;
use std::alloc::{AllocError, AllocFailed};

/// There is no memory, or a number has no next one.
#[derive(Debug, Drop)]
pub struct NoMemory;

impl From<AllocError> for NoMemory {
    fn from(_error: AllocError) -> NoMemory {
        NoMemory
    }
}

impl<T: Drop> From<AllocFailed<T>> for NoMemory {
    fn from(_error: AllocFailed<T>) -> NoMemory {
        NoMemory
    }
}

impl From<GroupFault> for NoMemory {
    fn from(_fault: GroupFault) -> NoMemory {
        NoMemory
    }
}

impl From<MemberFault> for NoMemory {
    fn from(_fault: MemberFault) -> NoMemory {
        NoMemory
    }
}

impl From<AwaitingFault> for NoMemory {
    fn from(_fault: AwaitingFault) -> NoMemory {
        NoMemory
    }
}

impl From<OpFault> for NoMemory {
    fn from(_fault: OpFault) -> NoMemory {
        NoMemory
    }
}

impl From<ShardFault> for NoMemory {
    fn from(_fault: ShardFault) -> NoMemory {
        NoMemory
    }
}
