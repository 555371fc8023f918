//! The journal: what was answered, in order.
#![tactic(auto)]

mod entry;
mod fault;
mod journal;

pub use entry::{JournalEntry, Who};
pub use fault::JournalFault;
pub use journal::Journal;
