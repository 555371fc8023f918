//! Whether an entry may stand on a disk.
#![tactic(auto)]

mod readable;

pub use readable::is_readable;
