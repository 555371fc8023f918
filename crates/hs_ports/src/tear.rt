//! What a crash makes of the bytes that weren't synced.

/// One way in which a crash may tear what isn't synced. Each gives one content of those that may
/// be left.
#[derive(Clone, Copy, Debug, PartialEq, Eq)]
pub enum Tear {
    /// The side as the last sync left it.
    Old,

    /// The side as a read gives it.
    New,

    /// Of each write the first half, rounded down. The rest is as it was, and 0 past the end.
    Half,

    /// Each byte that isn't synced has this value. The length is that which a read gives.
    Fill(u8),
}
