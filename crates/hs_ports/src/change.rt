//! A call that changes one side of a disk in memory, as its record has it.
use hs_limits::ListOf;

/// What a call did to a side. One that failed did nothing that a read shows.
#[derive(Debug, Drop)]
pub enum Deed {
    Wrote { at: u64, bytes: ListOf<u8> },
    Cut { len: u64 },
    Synced,
    WriteFailed { at: u64, len: u64 },
    CutFailed { len: u64 },
    SyncFailed,
}

/// A deed and the moment of its call.
#[derive(Debug, Drop)]
pub struct Change {
    pub moment: u64,
    pub deed: Deed,
}
