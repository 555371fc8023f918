//! An asker over a cluster and its disks: a client's operations, each answered before the next one is
//! asked for.
#![tactic(auto)]

mod answer;
mod asker;
mod drive;
mod ends;
mod handed;
mod kinds;
mod line;
mod work;

pub use asker::ClusterAsker;
pub use ends::{AskerTold, Closed, status_by, status_of_closed};
pub use handed::Handed;
