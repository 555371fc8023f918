//! How far a list of entries is.
ghost use Rattle.std.specs.Prelude.{◌≡◌};
ghost use Rattle.hs_entry.specs.Entries.{rank_after};

use crate::Entry;

/// How far a list of entries is: its view, and the number of its last entry. The view counts
/// first.
#[derive(Clone, Copy, Debug, PartialEq, Eq, PartialOrd, Ord)]
pub struct Rank {
    pub view: u64,
    pub number: u64,
}

impl Rank {
    /// The rank behind one frame more. A kept frame is no entry.
    pub fn after(self, number: u64, entry: &Entry) -> Rank
        ensures { result ≡ rank_after self number entry.now }
    {
        match entry {
            Entry::View { view } | Entry::Base { view, .. } => Rank {
                view: *view,
                number,
            },
            Entry::KeptBlock { .. } | Entry::KeptRoot { .. } | Entry::KeptRound { .. } => self,
            _ => Rank {
                view: self.view,
                number,
            },
        }
    }
}
