//! A peer's list on its disk.
#![tactic(auto)]

mod append;
mod clear;
mod close;
mod empty;
mod fault;
mod from_view;
mod header;
mod log;
mod made;
mod opening;
mod read;
mod recover;
mod reset;
mod seal;
mod view;

pub use fault::LogFault;
pub use log::PeerLog;
pub use view::PeerView;
