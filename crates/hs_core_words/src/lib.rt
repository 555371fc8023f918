//! The core as a machine over events: its words, and the plain data that they speak of.
#![tactic(auto)]

mod event;
mod task;

pub use event::Event;
pub use task::Task;
