//! The retention roots of one shard.
#![tactic(auto)]

mod fault;
mod root;
mod root_set;

pub use fault::RootFault;
pub use root::RootRecord;
pub use root_set::RootSet;
