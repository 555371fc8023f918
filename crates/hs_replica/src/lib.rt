//! The copies of one shard's list: who has which entries, what all have sealed, and new views.
#![tactic(auto)]

mod copies;
mod fault;
mod group;
mod kinds;
mod laws;
mod replica;
mod sending;
mod stamps;
mod stores;
mod tally;
mod waiting;

pub use fault::GroupFault;
pub use group::Group;
pub use laws::the_front_never_falls;
