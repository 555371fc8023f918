//! What is kept of a peer's disk while a store opens.

use hs_peerlog::{PeerLog, PeerView};

/// What is kept of the disk of a peer.
#[derive(Drop)]
pub(crate) enum Slot {
    /// Nothing: it is no log, or a call of it failed, or it was not found or made equal in time.
    Aside,
    /// A view, of a list that was not found equal to the taken one.
    Viewed(PeerView),
    /// A view, of a list that was.
    Equal(PeerView),
    /// Its log.
    Kept(PeerLog),
}

/// The taken log of a shard.
#[derive(Drop)]
pub(crate) enum Source {
    Kept(PeerLog),
    /// Its disk failed, before this moment.
    Lost(u64),
}
