//! What holds of a core behind any events, whatever their reports tell and whatever addresses their writes bring: a
//! law, which is a function without parameters whose clauses are the law.
#![tactic(auto)]

mod counting;

pub use counting::counts_are_right_behind_any_events;
