//! One entry of the journal.
use hs_model::{Deed, Reply};

/// Whom an entry is about: a line of the script by its number from 1, a shard, or the store as a whole.
#[derive(Clone, Copy, Debug, PartialEq, Eq)]
pub enum Who {
    Line(u64),
    Shard(u8),
    Store,
}

/// An entry: whom it is about, the moment of the watch at which it was made, what was done, what was answered.
#[derive(Debug, Drop)]
pub struct JournalEntry {
    pub who: Who,
    pub moment: u64,
    pub deed: Deed,
    pub reply: Reply,
}
