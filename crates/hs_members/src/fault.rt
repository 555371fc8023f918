//! Why a peer changes its status not.
use thiserror::Error;

/// Why a peer's status stays as it is.
#[derive(Clone, Copy, Debug, PartialEq, Eq, Error)]
pub enum MemberFault {
    /// The peer is Down already.
    #[error("the peer is down")]
    NotUp,
    /// The peer is Good or Joining.
    #[error("the peer is not down")]
    NotDown,
    /// There was not enough memory, or the shard has no next view.
    #[error("out of memory")]
    NoMemory,
}
