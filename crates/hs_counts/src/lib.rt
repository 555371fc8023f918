//! The reference counts of blocks.
#![tactic(auto)]

mod counts;
mod fault;

pub use counts::Counts;
pub use fault::CountFault;
