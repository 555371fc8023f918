//! The catalogue of one shard in memory: what its entries amount to, without the blocks' data.
#![tactic(auto)]

mod blocks;
mod catalogue;
mod effect;
mod empty;
mod facts;
mod fault;
mod laws;
mod listed;
mod picking;
mod plain_blocks;
mod plain_roots;
mod tally;
mod writes;

pub use catalogue::Catalogue;
pub use effect::{BlockFacts, Effect, Sent};
pub use empty::empty_store;
pub use facts::Facts;
pub use fault::ShardFault;
pub use laws::effects_tell_what_changed;
