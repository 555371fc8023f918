//! The store of sound lists: laws, each a function without parameters whose clauses are the law.
#![tactic(auto)]

mod store;

pub use store::a_store_of_sound_lists_is_right;
