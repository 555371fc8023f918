//! What a journal tells of a deletion: laws, each a function without parameters whose clauses are the law.
#![tactic(auto)]

mod apart;
mod done;
mod sweeps;

pub use apart::folded_stores_have_distinct_addresses;
pub use done::done_stands_behind_its_sweep;
pub use sweeps::each_sweep_is_exact;
