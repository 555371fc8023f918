//! Deletion as a machine over histories: laws, each a function without parameters whose clauses are the law.
#![tactic(auto)]

mod catalogue;
mod course;
mod history;
mod named;
mod step;
mod sweep;
mod zero;

pub use catalogue::{
    catalogues_follow_a_lawful_history, catalogues_send_what_the_machine_sends,
    counts_of_catalogues_are_right,
};
pub use course::{a_run_goes_on, a_search_lowers_what_remains};
pub use history::{
    lawful_histories_keep_the_invariants, the_store_has_a_layout, what_may_be_used_is_backed,
};
pub use named::{counts_are_right, nothing_names_what_is_absent};
pub use step::rounds_run_in_step;
pub use sweep::a_sweep_removes_exactly_the_unreached;
pub use zero::{each_unreached_block_is_found, no_reached_block_is_a_wrong_zero};
