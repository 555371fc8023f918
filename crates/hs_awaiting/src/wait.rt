//! What an operation waits for.

/// What an operation without an answer waits for.
#[derive(Clone, Copy, Debug, PartialEq, Eq)]
pub enum Wait {
    /// The View of its shard's current view.
    View,
    /// The Block entry that has its address.
    Address,
    /// An entry after which there may be room in its shard.
    Room,
    /// The bytes of the block of the entry of this number.
    Bytes { number: u64 },
    /// Its own entry, of this number.
    Entry { number: u64 },
}
