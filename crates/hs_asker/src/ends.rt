//! What is left where an asker ended, and how its run ended.
ghost use Rattle.std.specs.Prelude.{◌≡◌, [], Err, if◌then◌else◌};
ghost use Rattle.hs_asker.specs.Silent.{status_by};
ghost use Rattle.hs_promise.specs.Ending.{ending_of};
ghost use Rattle.hs_run.specs.Stopping.{of_cluster, status_of};

use hs_cluster::ClusterFault;
use hs_desk::CoreFault;
use hs_journal::{Journal, JournalEntry};
use hs_limits::ListOf;
use hs_model::CourseItem;
use hs_ports::Watch;
use hs_promise::Status;
use std::alloc::Global;

/// An asker at its end: why it has ended, if it has; what was answered; the entries that had no room in
/// the journal, where it has ended as OpsFull; what happened beside that; how many lines were begun; and
/// what it was handed.
pub struct AskerTold<D> {
    pub ended: Option<CoreFault>,
    pub journal: Journal,
    pub refused: ListOf<JournalEntry>,
    pub course: ListOf<CourseItem>,
    pub line: u64,
    pub disks: Vec<D>,
    pub watch: Watch,
}

/// Why no asker was opened: a disk is of another store, or memory was wanting; with what was handed in.
pub struct Closed<D> {
    pub fault: ClusterFault,
    pub disks: Vec<D>,
    pub watch: Watch,
}

/// How a run ended whose asker has ended so, or goes on.
pub fn status_by(ended: Option<CoreFault>) -> Status
    ensures { result ≡ status_by ended }
{
    match ended {
        None => Status::Done,
        Some(CoreFault::OpsFull) => Status::OpsFull,
        Some(CoreFault::ShardLost { shard }) => Status::ShardLost { shard },
        Some(CoreFault::NoMemory) => Status::NoMemory,
    }
}

/// How a run ended that opened no asker.
pub fn status_of_closed(fault: ClusterFault) -> Status
    ensures { result ≡ status_of (Err (of_cluster fault)) 0 }
{
    match fault {
        ClusterFault::WrongShape { peer, found } => Status::WrongShape { peer, found },
        ClusterFault::ShardLost { shard } => Status::ShardLost { shard },
        ClusterFault::OpsFull => Status::OpsFull,
        ClusterFault::NoMemory => Status::NoMemory,
    }
}

/// The entries that an event would have made, where the journal had no room for them.
pub(crate) fn refused_by(
    alloc: Global,
    ended: Option<CoreFault>,
    refused: ListOf<JournalEntry>,
) -> ListOf<JournalEntry>
    ensures { result ≡ (if (ending_of (status_by ended)).full then refused else []) }
{
    match ended {
        Some(CoreFault::OpsFull) => refused,
        Some(CoreFault::ShardLost { .. } | CoreFault::NoMemory) | None => ListOf::new(alloc),
    }
}
