//! What an entry of the journal did.
use crate::Asked;
use hs_limits::{Address, Key, ListOf, Name};

/// What an entry did to the store, without the data of blocks.
#[derive(Debug, Drop)]
pub enum Deed {
    Opened {
        session: Name,
    },
    Closed {
        session: Name,
    },
    Wrote {
        session: Name,
        address: Address,
        pointers: ListOf<Address>,
        handle: u32,
    },
    Marked {
        session: Name,
        address: Address,
        handle: u32,
    },
    /// `epoch` is that of the handle read through.
    ReadBlock {
        session: Name,
        address: Address,
        epoch: u64,
        handles: ListOf<u32>,
    },
    Looked {
        session: Name,
        key: Key,
        handle: u32,
    },
    Rooted {
        key: Key,
        address: Address,
    },
    Dropped {
        key: Key,
    },
    Forgot {
        session: Name,
        handle: u32,
    },
    Entered {
        shard: u8,
    },
    Swept {
        shard: u8,
    },
    Refused {
        asked: Asked,
    },
    Nothing,
}
