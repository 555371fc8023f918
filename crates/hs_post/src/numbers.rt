//! For each receiver some numbers, in order.
ghost use Rattle.std.specs.Prelude.{◌≡◌, ℕ, ◌==◌, ◌&&◌, ◌||◌, false, not, OnOk, OnErr};
ghost use Rattle.hs_post.specs.First.{IsFirst};
ghost use Rattle.hs_post.specs.Inboxes.{has};

use std::alloc::{AllocError, Global};
use std::collections::BTreeSet;
use std::marker::Model;

/// For each receiver some numbers, in order.
#[derive(Debug, Drop)]
pub(crate) struct Numbers {
    numbers: BTreeSet<(usize, u64)>,
}

impl Model for Numbers {
    ghost use Rattle.std.specs.Prelude.{List, ℕ};

    ghost Value = { List (ℕ × ℕ) };

    ghost view = { λ a. a.numbers.keys };
}

impl Numbers {
    /// No number. It takes no memory.
    pub(crate) fn new(alloc: Global) -> Numbers
        ensures { (to n : ℕ) → has result to n ≡ false }
    {
        Numbers {
            numbers: BTreeSet::new(alloc),
        }
    }

    /// Adds a number of a receiver. Without memory nothing changes.
    pub(crate) fn add(&mut self, receiver: usize, number: u64) -> Result<(), AllocError>
        ensures ok { OnOk result ((to n : ℕ) →
            has self.new to n ≡ (receiver == to && number == n || has self.old to n)) }
        ensures same { OnErr result (self.new ≡ self.old) }
    {
        self.numbers.insert((receiver, number))?;
        Ok(())
    }

    /// Takes a number of a receiver out. It takes no memory.
    pub(crate) fn remove(&mut self, receiver: usize, number: u64)
        ensures { (to n : ℕ) →
            has self.new to n ≡ (not (receiver == to && number == n) && has self.old to n) }
    {
        self.numbers.remove(&(receiver, number));
    }

    /// The least number of a receiver, if it has one. It takes no memory.
    pub(crate) fn first(&self, receiver: usize) -> Option<u64>
        ensures { IsFirst (has self.now receiver) result }
    {
        let Some((to, number)) = self.numbers.range((receiver, 0)..).next() else {
            return None;
        };
        if *to == receiver { Some(*number) } else { None }
    }
}
