//! The command `load`: writers and workers beside each other over a store, four deletions, and the summary.
#![tactic(auto)]

mod comparing;
mod concluding;
mod counting;
mod finishing;
mod gathering;
mod handing;
mod judgement;
mod judging;
mod load;
mod names;
mod outcome;
mod owners;
mod places;
mod reaching;
mod resuming;
mod seating;
mod summing;
mod tallying;
mod telling;
mod working;

pub use load::run_load;
pub use resuming::are_fit;
