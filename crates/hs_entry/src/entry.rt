//! The kinds of entries.
use hs_limits::{Address, Delta, Key, ListOf};
use hs_shared::SharedBytes;

/// An entry of a shard's log, or a frame that stands for earlier ones.
#[derive(Debug, Drop)]
pub enum Entry {
    /// A view began.
    View {
        view: u64,
    },
    /// A block was stored: its spelling, which a copy of the entry shares. `least` is the least epoch
    /// of the pointers' handles.
    Block {
        op: u64,
        least: u64,
        bytes: SharedBytes,
    },
    /// A write found its block stored, by the entry of number `block`.
    Mark {
        op: u64,
        least: u64,
        block: u64,
        address: Address,
    },
    /// A root was retained.
    Root {
        op: u64,
        held: u64,
        address: Address,
        key: Key,
    },
    /// A root was dropped.
    Drop {
        op: u64,
        key: Key,
    },
    /// An epoch was entered.
    Enter {
        op: u64,
        epoch: u64,
    },
    /// Changes of counts came from another shard.
    Got {
        sender: u8,
        epoch: u64,
        round: u32,
        total: u32,
        deltas: ListOf<Delta>,
    },
    /// The state that the entries up to this one left, with so many kept frames behind it.
    Base {
        view: u64,
        epoch: u64,
        swept: u64,
        round: u32,
        frames: u32,
    },
    /// A block that was kept: its spelling.
    KeptBlock {
        born: u64,
        mark: u64,
        flags: u8,
        count: u32,
        bytes: ListOf<u8>,
    },
    /// A root that was kept.
    KeptRoot {
        created: u64,
        dropped: u64,
        counted: u8,
        address: Address,
        key: Key,
    },
    /// A round that was kept.
    KeptRound {
        way: u8,
        other: u8,
        epoch: u64,
        round: u32,
        total: u32,
        deltas: ListOf<Delta>,
    },
}
