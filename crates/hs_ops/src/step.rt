//! What is to be done for an operation.
use hs_entry::Entry;
use hs_model::Reply;

/// What is to be done next for an operation.
#[derive(Debug, Drop)]
pub enum OpStep {
    /// It is answered.
    Answer(Reply),
    /// This entry is to be added to the lead's list; the operation is answered when it takes effect.
    Propose(Entry),
    /// The bytes of the block of the entry of this number are wanted.
    Compare { number: u64 },
    /// It waits: for the View of the current view, or for an entry of the lead's list.
    Wait,
}
