//! A store without data, as the slow functions take it.
use hs_limits::{Address, Held, Key, ListOf, Shape};

/// A present block without its bytes, with the epoch in which it was born.
#[derive(Debug, Drop)]
pub struct PlainBlock {
    pub address: Address,
    pub pointers: ListOf<Address>,
    pub born: u64,
}

/// A retention root: its key, the address that it keeps, and the epoch in which it was dropped, if
/// it was.
#[derive(Debug, Drop)]
pub struct PlainRoot {
    pub key: Key,
    pub address: Address,
    pub dropped: Option<u64>,
}

/// A store without data, sessions and what they hold. `given` has the greatest epoch in which a
/// write gave a present address; `epochs` and `swept` have one number for each shard.
#[derive(Debug, Drop)]
pub struct PlainStore {
    pub shape: Shape,
    pub blocks: ListOf<PlainBlock>,
    pub given: ListOf<Held>,
    pub roots: ListOf<PlainRoot>,
    pub epochs: ListOf<u64>,
    pub swept: ListOf<u64>,
}
