//! For what a line waits.
use hs_limits::Address;

/// For what the operation of a line waits in its shard.
#[derive(Clone, Copy, Debug, PartialEq, Eq, PartialOrd, Ord)]
pub enum Cause {
    /// The View of the current view.
    View { shard: u8 },
    /// Room for a block.
    BlockRoom { shard: u8 },
    /// Room for a root.
    RootRoom { shard: u8 },
    /// The Block of an address that it writes.
    Block { shard: u8, address: Address },
    /// The Block of an address that it does not write.
    Other { shard: u8 },
}
