//! What the head of a side tells.

/// What the head of a side tells: how many shards and copies the store has, and which peer the
/// disk is of. No bound is kept here.
#[derive(Clone, Copy, Debug, PartialEq, Eq)]
pub struct Header {
    pub shards: u8,
    pub copies: u8,
    pub peer: u8,
}
