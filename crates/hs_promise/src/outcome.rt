//! What a run hands back.
use crate::{Kept, Status, Stored};
use hs_journal::{Journal, JournalEntry};
use hs_limits::ListOf;
use hs_model::CourseItem;

/// How a run ended, and what it did until then.
#[derive(Drop)]
pub struct Outcome {
    pub status: Status,
    /// What was answered, in order. Empty where the words are a faulty command line.
    pub journal: Journal,
    /// What each session of a load was answered. Empty but in a load.
    pub kept: ListOf<Kept>,
    /// What each peer of a load did. Empty but in a load.
    pub stored: ListOf<Stored>,
    /// The entries of the event that `OpsFull` refused, else none.
    pub refused: ListOf<JournalEntry>,
    /// Which lines were begun, when peers became good or were lost, and how far each shard's list took
    /// effect, with their moments. Empty where no log was taken.
    pub course: ListOf<CourseItem>,
    /// The number of the last line of the script that was begun, 0 where none was.
    pub line: u64,
}
