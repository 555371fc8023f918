//! What the store answers.
use hs_limits::{Address, Key, ListOf, Name};
use hs_shared::SharedBytes;

/// An answer, or a note that stands beside the answers. How each is printed is in docs/FORMATS.md.
#[derive(Debug, Drop)]
pub enum Reply {
    Ok,
    New {
        handle: u32,
        epoch: u64,
    },
    Dup {
        handle: u32,
        epoch: u64,
    },
    /// The data of a block, which may share the bytes of its spelling, and a handle for each pointer.
    Bytes {
        bytes: SharedBytes,
        handles: ListOf<u32>,
    },
    Held {
        handle: u32,
        epoch: u64,
    },
    Name {
        address: Address,
    },
    Stat {
        blocks: u64,
        roots: u64,
        sessions: u32,
        epochs: ListOf<u64>,
        swept: ListOf<u64>,
    },
    Run {
        epoch: u64,
    },
    Enter {
        epoch: u64,
    },
    Sweep {
        epoch: u64,
        removed: u32,
    },
    Done {
        epoch: u64,
    },
    Down {
        peer: u8,
        line: u64,
    },
    Visits {
        epoch: u64,
        count: u64,
    },
    NoSession {
        session: Name,
    },
    SessionTaken {
        session: Name,
    },
    SessionsFull {
        limit: u32,
    },
    Busy {
        line: u64,
    },
    TooLong {
        found: u64,
    },
    TooMany {
        found: u64,
    },
    NoHandle {
        handle: u32,
    },
    HandlesFull {
        limit: u32,
    },
    Stale {
        handle: u32,
        held: u64,
        now: u64,
    },
    Collision,
    ShardFull {
        limit: u32,
    },
    KeyTaken {
        key: Key,
    },
    NoKey {
        key: Key,
    },
    RootsFull {
        limit: u32,
    },
    Running {
        epoch: u64,
    },
    EpochEnd {
        limit: u64,
    },
    NoPeer {
        peer: u8,
    },
    NotUp {
        peer: u8,
    },
    NotDown {
        peer: u8,
    },
    NoMessage {
        message: u64,
    },
    PoolFull {
        limit: u32,
    },
}
