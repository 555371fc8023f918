//! What a client asks of the store.
use hs_limits::{Address, Key, ListOf, Name};

/// An operation. A session is the client's own; a handle is a number that the session holds.
#[derive(Debug, Drop)]
pub enum Op {
    Open {
        session: Name,
    },
    Close {
        session: Name,
    },
    /// `address` is what the naming gives for the block's bytes, or None where a handle is not held
    /// or a bound of blocks is passed.
    Write {
        session: Name,
        payload: ListOf<u8>,
        handles: ListOf<u32>,
        address: Option<Address>,
    },
    Read {
        session: Name,
        handle: u32,
    },
    Look {
        session: Name,
        key: Key,
    },
    Root {
        session: Name,
        key: Key,
        handle: u32,
    },
    Drop {
        key: Key,
    },
    Forget {
        session: Name,
        handle: u32,
    },
    Name {
        session: Name,
        handle: u32,
    },
    Delete,
    Stat,
}

/// An operation that was refused: as `Op`, with the number of a write's bytes in place of the bytes.
#[derive(Debug, Drop)]
pub enum Asked {
    Open {
        session: Name,
    },
    Close {
        session: Name,
    },
    Write {
        session: Name,
        length: u64,
        handles: ListOf<u32>,
        address: Option<Address>,
    },
    Read {
        session: Name,
        handle: u32,
    },
    Look {
        session: Name,
        key: Key,
    },
    Root {
        session: Name,
        key: Key,
        handle: u32,
    },
    Drop {
        key: Key,
    },
    Forget {
        session: Name,
        handle: u32,
    },
    Name {
        session: Name,
        handle: u32,
    },
    Delete,
    Stat,
}
