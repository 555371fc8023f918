//! The commands that look a store over: what its logs amount to, and whether its copies agree.
#![tactic(auto)]

mod auditing;
mod comparing;
mod ending;

pub use auditing::run_audit;
pub use comparing::run_scrub;
