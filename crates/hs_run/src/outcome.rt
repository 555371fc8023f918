//! What a run on a cluster hands back.
ghost use Rattle.std.specs.Prelude.{◌≡◌, [], Some, if◌then◌else◌};
ghost use Rattle.hs_promise.specs.Ending.{ending_of};
ghost use Rattle.hs_run.specs.Ended.{refused_in};

use hs_cluster::Cluster;
use hs_journal::{Journal, JournalEntry};
use hs_limits::ListOf;
use hs_promise::{Outcome, Status};
use std::alloc::Global;

/// The outcome of a run that opened no cluster: nothing was answered, with a journal that has room for so
/// many entries. It takes no memory.
pub fn closed(alloc: Global, status: Status, limit: u32) -> Outcome
    ensures status { result.status ≡ status }
    ensures line { result.line ≡ 0 }
    ensures journal { result.journal.entries ≡ [] }
    ensures kept { result.kept ≡ [] }
    ensures stored { result.stored ≡ [] }
    ensures refused { result.refused ≡ [] }
    ensures course { result.course ≡ [] }
{
    Outcome {
        status,
        journal: Journal::new(alloc, limit),
        kept: ListOf::new(alloc),
        stored: ListOf::new(alloc),
        refused: ListOf::new(alloc),
        course: ListOf::new(alloc),
        line: 0,
    }
}

/// The outcome of a run that ended so behind a line: its cluster's journal is what was answered, and
/// its course what happened beside that. It takes no memory.
pub(crate) fn outcome_of(alloc: Global, status: Status, line: u64, cluster: Cluster) -> Outcome
    ensures status { result.status ≡ status }
    ensures line { result.line ≡ line }
    ensures journal { result.journal.entries ≡ cluster.core.journal }
    ensures kept { result.kept ≡ [] }
    ensures stored { result.stored ≡ [] }
    ensures refused { result.refused ≡ refused_in status (Some cluster) }
    ensures course { result.course ≡ cluster.course }
{
    let (core, course) = cluster.into_told();
    let (journal, refused) = core.into_told();
    let refused = refused_by(alloc, &status, refused);
    Outcome {
        status,
        journal,
        kept: ListOf::new(alloc),
        stored: ListOf::new(alloc),
        refused,
        course,
        line,
    }
}

/// The entries that an event would have made, where the journal had no room for them.
fn refused_by(alloc: Global, status: &Status, refused: ListOf<JournalEntry>) -> ListOf<JournalEntry>
    ensures { result ≡ (if (ending_of status.now).full then refused else []) }
{
    match status {
        Status::OpsFull => refused,
        Status::Done
        | Status::Usage
        | Status::BadLine { .. }
        | Status::ShardLost { .. }
        | Status::ReadFault
        | Status::WriteFault
        | Status::NoMemory
        | Status::WrongShape { .. }
        | Status::Mismatch { .. }
        | Status::Torn { .. }
        | Status::NotEmpty { .. }
        | Status::InputFull
        | Status::Refused { .. }
        | Status::NotATree { .. }
        | Status::NoSource { .. }
        | Status::CopyFull { .. } => ListOf::new(alloc),
    }
}
