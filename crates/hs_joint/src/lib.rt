//! Histories, folds and the plain store are one: laws, each a function without parameters whose clauses are the law.
#![tactic(auto)]

mod along;
mod joined;
mod numbers;

pub use along::histories_do_their_part;
pub use joined::folds_follow_the_machine;
pub use numbers::rounds_lose_nothing;
