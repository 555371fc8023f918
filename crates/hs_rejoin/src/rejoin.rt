//! The steps of a joining peer.
ghost use Rattle.std.specs.Prelude.{◌≡◌, ◌+◌, ◌||◌, is_some, nat_lt};
ghost use Rattle.hs_rejoin.specs.Rejoin.{copied, emptied, follow, is_level, new_rejoin, next_job};

use hs_desk::Job;
use std::marker::Model;

/// How far a joining peer has come: its disk is emptied first, and then gets the lead's sealed entries,
/// one a step, in order from 1.
#[derive(Debug, Drop)]
pub struct Rejoin {
    from: u8,
    empty: bool,
    len: u64,
}

impl Model for Rejoin {
    ghost use Rattle.hs_rejoin.specs.Rejoin.{Rejoin};

    ghost Value = { Rejoin };

    ghost view = { λ a. record {
      from = a.from;
      empty = a.empty;
      len = a.len;
    } };
}

impl Rejoin {
    /// A peer that begins to join, or begins again, and copies from the peer `from`: an emptying is
    /// due. It takes no memory.
    pub fn new(from: u8) -> Rejoin
        ensures value { result ≡ new_rejoin from }
    {
        Rejoin {
            from,
            empty: true,
            len: 0,
        }
    }

    /// The next step, where the lead has sealed the entries up to the number `lead_sealed`: the
    /// emptying while it is due, and then the copying of the next entry. None exactly where no
    /// emptying is due and the list has at least `lead_sealed` entries. It takes no memory.
    pub fn next(&self, lead_sealed: u64) -> Option<Job>
        ensures value { result ≡ next_job lead_sealed self.now }
        ensures found { is_some result ≡ (self.now.empty || nat_lt self.now.len lead_sealed) }
    {
        if self.empty {
            Some(Job::Reset)
        } else if self.len < lead_sealed {
            Some(Job::Copy {
                from: self.from,
                number: self.len + 1,
            })
        } else {
            None
        }
    }

    /// Whether the peer has all that the lead has, where the lead's list has `lead_length` entries: no
    /// emptying is due, and its list is as long. It takes no memory.
    pub fn is_level(&self, lead_length: u64) -> bool
        ensures value { result ≡ is_level lead_length self.now }
    {
        !self.empty && self.len == lead_length
    }

    /// The disk was emptied. It takes no memory.
    pub fn emptied(&mut self)
        ensures value { self.new ≡ emptied self.old }
    {
        self.empty = false;
        self.len = 0;
    }

    /// The entry of this number was copied and sealed. It takes no memory.
    pub fn copied(&mut self, number: u64)
        ensures value { self.new ≡ copied number self.old }
    {
        self.len = number;
    }

    /// The lead changed without going Down: the peer copies from `from` on, and nothing else changes.
    /// It takes no memory.
    pub fn follow(&mut self, from: u8)
        ensures value { self.new ≡ follow from self.old }
    {
        self.from = from;
    }
}
