//! The state of the core, and the single changes of which every event is made.
#![tactic(auto)]

mod aim;
mod beginning;
mod carrying;
mod copying;
mod effects;
mod ending;
mod going;
mod joining;
mod leads;
mod lines;
mod lists;
mod new_core;
mod new_lists;
mod no_memory;
mod notes;
mod open_work;
mod opening;
mod pending;
mod plain;
mod queue;
mod records;
mod reporting;
mod seating;
mod sending;
mod sight;
mod state;
mod statuses;
mod step;
mod steps;
mod tasks;
mod telling;
mod views;

pub use aim::Aim;
pub use no_memory::NoMemory;
pub use state::State;
