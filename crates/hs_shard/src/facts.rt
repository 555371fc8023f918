//! What is known of a present block.
use hs_limits::{Address, ListOf};

/// A present block: the number of the entry that stored it, the epoch of its birth and the one in
/// which a write gave it last, whether it counts, whether it is a zero block, how often it is pointed
/// to, and what it points to. Its data stay on the disks.
#[derive(Debug, Drop)]
pub struct Facts {
    pub number: u64,
    pub born: u64,
    pub mark: u64,
    pub counted: bool,
    pub zero: bool,
    pub count: u32,
    pub pointers: ListOf<Address>,
}
