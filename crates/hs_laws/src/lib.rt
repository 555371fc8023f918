//! What follows from the definitions of the plain store: laws, each a function without parameters whose clause is the law.
#![tactic(auto)]

mod acyclic;
mod distinct;
mod order;
mod present;
mod reach;
mod refusal;
mod runs;
mod sweep;
mod valid;
mod write;

pub use acyclic::stores_stay_acyclic;
pub use distinct::addresses_stay_distinct;
pub use order::lists_stay_in_order;
pub use present::what_is_kept_is_present;
pub use reach::reached_is_reached;
pub use refusal::a_refusal_leaves_the_store;
pub use runs::legal_runs_keep_all;
pub use sweep::sweep_is_exact;
pub use valid::{enter_keeps_valid, judge_keeps_valid, store_begins_valid, sweep_keeps_valid};
pub use write::{a_collision_stores_nothing, dup_is_the_same_block, new_was_absent};
