//! The plain store in memory.
use hs_limits::{Address, ListOf};

/// A present block, with the epoch in which it was born.
#[derive(Debug, Drop)]
pub struct StoredBlock {
    pub pointers: ListOf<Address>,
    pub bytes: ListOf<u8>,
    pub born: u64,
}
