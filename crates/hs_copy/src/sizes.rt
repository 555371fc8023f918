//! How much is copied at once.

/// The most different addresses that a root may reach.
pub(crate) const MOST_BLOCKS: usize = 4_000;

/// The most deletions that are asked for, and so the most beginnings that come to a stale handle.
pub(crate) const MOST_DELETIONS: u32 = 4;
