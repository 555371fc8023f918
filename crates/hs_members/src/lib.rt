//! The peers of a store: which are good, at which view each shard is, and who leads it.
#![tactic(auto)]

mod fault;
mod members;

pub use fault::MemberFault;
pub use members::{Members, home_of};
