//! How often each line was counted, with the lines in order.
ghost use Rattle.std.specs.Prelude.{[], ◌≡◌, ◌+◌, ◌<◌, ℕ, OnErr, OnOk};
ghost use Rattle.hs_replica.specs.Counting.{IsCleared, at_epoch, count_at, is_counted, once};
ghost use Rattle.hs_rounds.specs.declared.place.Place.{Place};
ghost use Rattle.hs_waits.specs.Lines.{IsFirstFrom};

use crate::kinds::place_of;
use crate::tally::Tally;
use hs_waits::Lines;
use std::alloc::{AllocError, Global};
use std::marker::Model;

/// How often each line was counted, and beside it the lines that were, in order. A line is counted at
/// the place of its number.
#[derive(Drop)]
pub struct Stores {
    counts: Tally,
    lines: Lines<u8>,
}

impl Model for Stores {
    ghost use Rattle.std.specs.Prelude.{List, ℕ};
    ghost use Rattle.hs_rounds.specs.declared.place.Place.{Place};

    ghost Value = { List (Place × ℕ) };

    ghost use Rattle.hs_replica.specs.Counting.{AreFiled};

    ghost view = { λ a. a.counts };

    ghost invariant = { λ a. AreFiled a.counts a.lines };
}

impl Stores {
    /// Nothing was counted. It takes no memory.
    pub(crate) fn new(alloc: Global) -> Stores
        ensures { result ≡ [] }
    {
        Stores {
            counts: Tally::new(alloc),
            lines: Lines::new(alloc),
        }
    }

    /// The first line from this one on that was counted. None exactly where there is none. It takes
    /// no memory.
    pub(crate) fn first(&self, from: u64) -> Option<u64>
        ensures { IsFirstFrom from (is_counted self.now) result }
    {
        self.lines.first(0, from)
    }

    /// Counts a line once more. Without memory nothing changes.
    pub(crate) fn add(&mut self, line: u64) -> Result<(), AllocError>
        ensures ok { OnOk result ((other : Place) → count_at self.new other
            ≡ once (at_epoch line) other + count_at self.old other) }
        ensures same { OnErr result (self.new ≡ self.old) }
    {
        self.lines.add(0, line)?;
        let done = self.counts.add(place_of(line));
        clear(&mut self.lines, &self.counts, line);
        done
    }

    /// Counts a line once less, where it was counted. It takes no memory.
    pub(crate) fn remove(&mut self, line: u64)
        ensures { 0 < count_at self.old (at_epoch line) → (other : Place) →
            count_at self.old other ≡ once (at_epoch line) other + count_at self.new other }
    {
        let place = place_of(line);
        if self.counts.count(place) == 0 {
            return;
        }
        self.counts.remove(place);
        clear(&mut self.lines, &self.counts, line);
    }
}

/// A line that was not counted is taken out. It takes no memory.
fn clear(lines: &mut Lines<u8>, counts: &Tally, line: u64)
    ensures { IsCleared counts.now line lines.old lines.new }
{
    if counts.count(place_of(line)) == 0 {
        lines.remove(0, line);
    }
}
