//! The core with its disks: what a line of a script does to both.
#![tactic(auto)]

mod cluster;
mod event;
mod fault;
mod job;
mod line;
mod opening;
mod recall;
mod settle;
mod work;

pub use cluster::Cluster;
pub use fault::ClusterFault;
pub use opening::Opened;
