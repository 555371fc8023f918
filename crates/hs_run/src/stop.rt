//! Why a script's run stops before its end.
ghost use Rattle.std.specs.Prelude.{◌≡◌, ◌<◌, ◌^◌};
ghost use Rattle.hs_run.specs.Stopping.{end_of, of_cluster, status_of};
ghost use Rattle.hs_run.specs.declared.stop.Stop.TheVariants.{NoMemory};

use hs_cluster::ClusterFault;
use hs_promise::Status;
use hs_side::Header;
use std::alloc::{AllocError, AllocFailed};

/// Why a run stops: what the top call makes a status of.
#[derive(Clone, Copy, Debug, PartialEq, Eq)]
pub enum Stop {
    /// The disk of a peer is of a store of another shape, or of another peer.
    WrongShape { peer: u8, found: Header },
    /// A shard has no good peer.
    ShardLost { shard: u8 },
    /// The next line is outside the script language.
    BadLine,
    /// The source failed.
    ReadFault,
    /// The sink failed.
    WriteFault,
    /// There was no memory.
    NoMemory,
    /// The journal can't take the entries of the next event.
    OpsFull,
    /// More bytes came than a script may have.
    InputFull,
}

impl From<AllocError> for Stop {
    ghost from_gives = { λ _ stop. stop ≡ NoMemory };

    fn from(_: AllocError) -> Stop {
        Stop::NoMemory
    }
}

impl<T: Drop> From<AllocFailed<T>> for Stop {
    ghost from_gives = { λ _ stop. stop ≡ NoMemory };

    fn from(_: AllocFailed<T>) -> Stop {
        Stop::NoMemory
    }
}

/// The stop that a fault of the cluster is.
pub(crate) fn of_cluster(fault: ClusterFault) -> Stop
    ensures { result ≡ of_cluster fault }
{
    match fault {
        ClusterFault::WrongShape { peer, found } => Stop::WrongShape { peer, found },
        ClusterFault::ShardLost { shard } => Stop::ShardLost { shard },
        ClusterFault::OpsFull => Stop::OpsFull,
        ClusterFault::NoMemory => Stop::NoMemory,
    }
}

/// What something that was done and then put came to: a text that was not put whole comes first.
pub(crate) fn end_of(did: Result<(), ClusterFault>, put: Result<(), Stop>) -> Result<(), Stop>
    ensures { result ≡ end_of did put }
{
    match put {
        Err(stop) => Err(stop),
        Ok(()) => match did {
            Ok(()) => Ok(()),
            Err(fault) => Err(of_cluster(fault)),
        },
    }
}

/// The status of a run that stopped, or came to its end, behind a line.
pub(crate) fn status_of(ended: Result<(), Stop>, line: u64) -> Status
    requires { line < 2 ^ 63 }
    ensures { result ≡ status_of ended line }
{
    match ended {
        Ok(()) => Status::Done,
        Err(Stop::WrongShape { peer, found }) => Status::WrongShape { peer, found },
        Err(Stop::ShardLost { shard }) => Status::ShardLost { shard },
        Err(Stop::BadLine) => Status::BadLine { line: line + 1 },
        Err(Stop::ReadFault) => Status::ReadFault,
        Err(Stop::WriteFault) => Status::WriteFault,
        Err(Stop::NoMemory) => Status::NoMemory,
        Err(Stop::OpsFull) => Status::OpsFull,
        Err(Stop::InputFull) => Status::InputFull,
    }
}
