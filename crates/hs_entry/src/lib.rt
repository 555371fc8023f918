//! Log entries: their kinds, their one spelling, and lists of them.
#![tactic(auto)]

mod copy;
mod entry;
mod fault;
mod field;
mod laws;
mod list;
mod parts;
mod rank;
mod reading;
mod same;
mod writing;

pub use entry::Entry;
pub use fault::EntryFault;
pub use laws::no_payload_begins_another;
pub use list::EntryList;
pub use rank::Rank;
pub use reading::{read_entry, read_rank};
pub use writing::write_entry;
