//! Files as trees of blocks: how one is stored under a key, and fetched.
#![tactic(auto)]

mod calls;
mod fault;
mod fetch;
mod grow;
mod laws;
mod parts;
mod session;
mod shape;
mod sizes;
mod store;
mod taking;

pub use fault::TreeFault;
pub use fetch::fetch_file;
pub use laws::{
    a_stored_file_is_fetched, a_stored_file_stays, a_tree_is_its_levels, a_tree_is_of_one_file,
};
pub use sizes::MOST_FILE;
pub use store::store_file;
