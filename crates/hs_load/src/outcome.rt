//! What a load hands back.
ghost use Rattle.std.specs.Prelude.{◌≡◌, [], if◌then◌else◌};
ghost use Rattle.hs_load.specs.Loaded.{cluster_status, refused_when};
ghost use Rattle.hs_promise.specs.Ending.{ending_of};

use hs_cluster::ClusterFault;
use hs_core::Core;
use hs_journal::JournalEntry;
use hs_limits::ListOf;
use hs_promise::{Kept, Outcome, Status, Stored};
use std::alloc::Global;

/// How a load ends where its cluster can't go on.
pub(crate) fn cluster_status(fault: ClusterFault) -> Status
    ensures { result ≡ cluster_status fault }
{
    match fault {
        ClusterFault::WrongShape { peer, found } => Status::WrongShape { peer, found },
        ClusterFault::ShardLost { shard } => Status::ShardLost { shard },
        ClusterFault::OpsFull => Status::OpsFull,
        ClusterFault::NoMemory => Status::NoMemory,
    }
}

/// The entries that an event would have made, where the journal had no room for them.
fn refused_by(alloc: Global, status: &Status, refused: ListOf<JournalEntry>) -> ListOf<JournalEntry>
    ensures { result ≡ (if (ending_of status.now).full then refused else []) }
{
    match status {
        Status::OpsFull => refused,
        Status::Done
        | Status::Usage
        | Status::BadLine { .. }
        | Status::ShardLost { .. }
        | Status::ReadFault
        | Status::WriteFault
        | Status::NoMemory
        | Status::WrongShape { .. }
        | Status::Mismatch { .. }
        | Status::Torn { .. }
        | Status::NotEmpty { .. }
        | Status::InputFull
        | Status::Refused { .. }
        | Status::NotATree { .. }
        | Status::NoSource { .. }
        | Status::CopyFull { .. } => ListOf::new(alloc),
    }
}

/// The outcome of a load that ended so, with its core, and what its sessions and peers came to.
pub(crate) fn outcome_of(
    alloc: Global,
    status: Status,
    core: Core,
    kept: Vec<Kept>,
    stored: Vec<Stored>,
) -> Outcome
    ensures status { result.status ≡ status }
    ensures line { result.line ≡ 0 }
    ensures journal { result.journal.entries ≡ core.journal }
    ensures refused { result.refused ≡ refused_when status core }
    ensures kept { result.kept ≡ kept.items }
    ensures stored { result.stored ≡ stored.items }
    ensures course { result.course ≡ [] }
{
    let (journal, refused) = core.into_told();
    let refused = refused_by(alloc, &status, refused);
    Outcome {
        status,
        journal,
        kept: ListOf::from_vec(kept),
        stored: ListOf::from_vec(stored),
        refused,
        course: ListOf::new(alloc),
        line: 0,
    }
}
