//! A catalogue in memory is the fold of its entries, without the blocks' data.
#![tactic(auto)]

mod agree;
mod whole;

pub use agree::catalogues_in_memory_are_folds;
pub use whole::catalogues_give_the_plain_store;
