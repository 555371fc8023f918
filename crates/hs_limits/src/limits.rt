//! The limits of a run, and what a peer is.
ghost use Rattle.std.specs.Prelude.{◌≡◌};

/// The greatest number of an epoch.
pub const LAST_EPOCH: u64 = 281_474_976_710_655;

/// How much a store takes before it refuses. No number is above that of `Limits::greatest`.
#[derive(Clone, Copy, Debug, PartialEq, Eq)]
pub struct Limits {
    /// Present blocks in a shard.
    pub blocks: u32,
    /// Retained roots in a shard.
    pub roots: u32,
    /// Open sessions.
    pub sessions: u32,
    /// Handles that a session holds.
    pub handles: u32,
    /// Messages in the pool.
    pub pool: u32,
    /// The greatest epoch.
    pub epochs: u64,
    /// Journal entries in a run.
    pub ops: u32,
}

impl Limits {
    ghost use Rattle.hs_limits.specs.Limits.{greatest_limits};

    /// The limits that hold where no option lowers them.
    pub const fn greatest() -> Limits
        ensures { result ≡ greatest_limits }
    {
        Limits {
            blocks: 16_384,
            roots: 4_096,
            sessions: 64,
            handles: 4_096,
            pool: 65_536,
            epochs: LAST_EPOCH,
            ops: 1_048_576,
        }
    }
}

/// What a peer is: its disk serves, is being filled, or is gone.
#[derive(Clone, Copy, Debug, PartialEq, Eq)]
pub enum PeerStatus {
    Good,
    Joining,
    Down,
}
