//! A peer's log, and what it tells without the disk.
ghost use Rattle.std.specs.Prelude.{◌≡◌};
ghost use Rattle.std.specs.Option.{option_map};

use hs_entry::Rank;
use hs_side::SideLog;
use std::alloc::Global;
use std::marker::Model;

/// A peer's list on its disk, which is handed to each call. The value keeps places, and the rank of
/// the list; what the frames hold is on the disk.
#[derive(Drop)]
pub struct PeerLog {
    pub(crate) alloc: Global,
    pub(crate) log: SideLog,
    pub(crate) rank: Rank,
    pub(crate) waits: Option<Rank>,
}

impl Model for PeerLog {
    ghost use Rattle.hs_peerlog.specs.Lists.{Keeping};

    ghost Value = { Keeping };

    ghost view = { λ a. record {
      log = a.log;
      rank = a.rank;
      waits = a.waits;
    } };
}

impl PeerLog {
    /// The rank of the sealed entries. It takes no memory.
    pub fn rank(&self) -> Rank
        ensures { result ≡ self.now.rank }
    {
        self.rank
    }

    /// The number of the last sealed entry, 0 where there is none. It takes no memory.
    pub fn last(&self) -> u64
        ensures { result ≡ self.now.rank.number }
    {
        self.rank.number
    }

    /// The number of the entry that is appended and not sealed, and None exactly where there is
    /// none. It takes no memory.
    pub fn unsealed(&self) -> Option<u64>
        ensures { result ≡ option_map (λ rank. rank.number) self.now.waits }
    {
        match self.waits {
            Some(rank) => Some(rank.number),
            None => None,
        }
    }
}
