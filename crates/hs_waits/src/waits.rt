//! For what each line waits.
ghost use Rattle.std.specs.Prelude.{◌≡◌, ℕ, Option, None, OnOk};
ghost use Rattle.std.specs.Ordering.{is_eq};
ghost use Rattle.hs_waits.specs.declared.cause.Cause.{Cause};
ghost use Rattle.hs_waits.specs.Causes.{AreWaits, is_same, waits};
ghost use Rattle.hs_waits.specs.Lines.{IsFirstFrom, changed};

use crate::{Cause, Lines};
use std::alloc::{AllocError, Global};
use std::marker::Model;

/// For what each line waits, and for each cause the lines in order.
#[derive(Drop)]
pub struct Waits {
    lines: Lines<Cause>,
}

impl Model for Waits {
    ghost use Rattle.std.specs.Prelude.{List, ℕ};
    ghost use Rattle.hs_waits.specs.declared.cause.Cause.{Cause};

    ghost Value = { List (Cause × ℕ) };

    ghost view = { λ a. a.lines };
}

impl Waits {
    /// No line waits. It takes no memory.
    pub fn new(alloc: Global) -> Waits
        ensures { AreWaits (λ n. None) result }
    {
        told_apart();
        Waits {
            lines: Lines::new(alloc),
        }
    }

    /// A line that waited for the first waits for the second instead. Without memory it may wait for
    /// neither.
    pub fn change(
        &mut self,
        line: u64,
        old: Option<Cause>,
        new: Option<Cause>,
    ) -> Result<(), AllocError>
        ensures { (causes : ℕ → Option Cause) → AreWaits causes self.old → causes line ≡ old
            → OnOk result (AreWaits (changed line new causes) self.new) }
    {
        told_apart();
        self.lines.change(line, old, new)
    }

    /// The least line from this one on that waits for this. None exactly where there is none. It
    /// takes no memory.
    pub fn first(&self, cause: Cause, from: u64) -> Option<u64>
        ensures { IsFirstFrom from (waits self.now cause) result }
    {
        told_apart();
        self.lines.first(cause, from)
    }
}

/// The order tells all causes apart.
fn told_apart()
    ensures { (a b : Cause) → is_eq (⟦<Cause as Ord>⟧.cmp a b) ≡ is_same a b }
{}
