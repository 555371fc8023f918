//! Which of several logs a shard is opened with.
#![tactic(auto)]

mod greatest;

pub use greatest::choose;
