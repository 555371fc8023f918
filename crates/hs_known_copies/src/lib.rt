//! What the laws of events ask of a core's copies is so: laws, each a function without parameters whose clauses are the law.
#![tactic(auto)]

mod causes;
mod known;

pub use causes::what_is_known_changes_by_its_cause;
pub use known::{a_store_that_opens_comes_on, what_is_in_step_knows_its_copies};
