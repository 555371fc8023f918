//! The commands that keep a file in a store, give it back, and copy what a key keeps into a second store.
#![tactic(auto)]

mod both;
mod copying;
mod ending;
mod fetching;
mod key;
mod storing;
mod two;

pub use copying::run_copy;
pub use fetching::run_fetch;
pub use storing::run_store;
