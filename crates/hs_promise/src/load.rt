//! What a load hands back of its sessions and its peers.
use hs_desk::CoreFault;
use hs_limits::{ListOf, Name};
use hs_model::{Deed, Reply};
use hs_shared::SharedBytes;

/// What one session of a load was answered.
#[derive(Debug, Drop)]
pub struct Kept {
    /// The session of a writer, or `deleter` of the thread that asks for deletions.
    pub session: Name,
    /// The place in the journal, the deed and the reply of each answer, in order.
    pub answers: ListOf<(u64, Deed, Reply)>,
    /// The fault that was answered last, if one was.
    pub fault: Option<CoreFault>,
}

/// What one peer of a load did.
#[derive(Debug, Drop)]
pub struct Stored {
    /// The peer.
    pub peer: u8,
    /// The numbers of the entries that were sealed, in order, and a 0 where the disk failed.
    pub numbers: ListOf<u64>,
    /// The numbers of the entries that were read, with the bytes of their blocks, in order.
    pub shown: ListOf<(u64, SharedBytes)>,
    /// The fault that was answered last, if one was.
    pub fault: Option<CoreFault>,
}
