//! What a store's logs amount to, said by plain reachability.
#![tactic(auto)]

mod auditing;
mod counting;
mod fault;
mod gathering;
mod law;
mod missing;
mod printing;
mod reading;
mod reporting;

pub use auditing::audit;
pub use fault::AuditFault;
pub use law::{an_ok_audit_finds_each_tree_whole, what_is_missing_is_told};
