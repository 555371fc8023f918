//! One shard's side of the rounds of a deletion run.
#![tactic(auto)]

mod body;
mod changes;
mod fault;
mod gots;
mod place;
mod run;
mod sending;

pub use body::RoundBody;
pub use changes::are_changes;
pub use fault::RunFault;
pub use place::{LAST_ROUND, Place};
pub use run::Run;
pub use sending::SentRound;
