//! The core: all shards, peers, sessions, operations, messages and jobs, changed by one event at a time.
#![tactic(auto)]

mod asking;
mod beginning;
mod carrying;
mod copying;
mod core_state;
mod delivering;
mod effects;
mod entering;
mod failing;
mod going;
mod joining;
mod reporting;
mod resuming;
mod step;
mod telling;

pub use core_state::Core;
pub use hs_core_words::{Event, Task};
