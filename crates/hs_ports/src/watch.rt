//! The watch: the moment of each call that changes something outside.
ghost use Rattle.std.specs.Prelude.{◌≡◌, max};
ghost use Rattle.hs_ports.specs.Watch.{Ticks};

use std::marker::Model;

/// A count of the calls that change something outside. A contract sees the moment, below 2^64.
#[derive(Debug, Drop)]
pub struct Watch {
    moment: u64,
}

impl Model for Watch {
    ghost use Rattle.std.specs.Prelude.{ℕ, ◌<◌, ◌^◌};

    ghost Value = { ℕ };

    ghost view = { λ w. w.moment };

    ghost invariant = { λ w. w.moment < 2 ^ 64 };
}

impl Watch {
    /// A watch at moment 0.
    pub fn new() -> Watch
        ensures value { result ≡ 0 }
    {
        Watch { moment: 0 }
    }

    /// The moment.
    pub fn now(&self) -> u64
        ensures value { result ≡ self.now }
    {
        self.moment
    }

    /// A second watch, at the same moment.
    pub fn twin(&self) -> Watch
        ensures value { result ≡ self.now }
    {
        Watch {
            moment: self.moment,
        }
    }

    /// Goes on to the moment of another watch, where that is later.
    pub fn reach(&mut self, other: &Watch)
        ensures later { self.new ≡ max self.old other.now }
    {
        if self.moment < other.moment {
            self.moment = other.moment;
        }
    }

    /// Goes on by one moment; at `u64::MAX` it stands still. A device that changes something
    /// outside calls it before it acts.
    pub fn raise(&mut self)
        ensures later { Ticks self.old self.new }
    {
        self.moment = self.moment.saturating_add(1);
    }
}
