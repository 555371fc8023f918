//! What a journal of deeds counts, and what deletions leave.
#![tactic(auto)]

mod counts;
mod leaving;

pub use counts::{epochs_rise_by_deletions, roots_are_those_kept_less_those_dropped};
pub use leaving::two_deletions_leave_what_roots_reach;
