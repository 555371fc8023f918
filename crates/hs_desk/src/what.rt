//! What an entry did when it took effect.

/// What an entry of a shard's log did when it took effect.
#[derive(Clone, Copy, Debug, PartialEq, Eq)]
pub enum What {
    /// Nothing that an operation waits for.
    Nothing,
    /// A view began.
    Viewed { view: u64 },
    /// A block was stored.
    Stored,
    /// A block that was there already was given again.
    Marked,
    /// The block of a Mark is gone, or its address is now that of another entry's block: the write
    /// has to begin again.
    Again,
    /// A root is retained.
    Rooted,
    /// A root was dropped.
    Dropped,
    /// The shard entered this epoch.
    Entered { epoch: u64 },
    /// The entry was refused, and changed nothing.
    Refused,
}
