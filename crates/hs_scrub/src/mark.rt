//! How a peer's list stands beside the log that was taken of its shard.
ghost use Rattle.std.specs.Prelude.{◌≡◌};
ghost use Rattle.hs_scrub.specs.Text.{is_same};

/// How a peer's list stands beside the log that was taken of its shard.
#[derive(Clone, Copy, Debug, PartialEq, Eq)]
pub enum PeerMark {
    /// It is that list.
    Same,
    /// That list begins with it: how many entries it has.
    Behind { length: u64 },
    /// The first number under which it has an entry that is not that list's.
    Differs { number: u64 },
    /// Its disk is no log: the first place that is wrong.
    NoLog { at: u64 },
    /// Its disk failed.
    Fault,
}

impl PeerMark {
    /// Whether the list is the taken one.
    pub fn is_same(&self) -> bool
        ensures { result ≡ is_same self.now }
    {
        matches!(self, PeerMark::Same)
    }
}
