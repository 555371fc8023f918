//! The lines that wait for something, in order.
ghost use Rattle.std.specs.Prelude.{◌≡◌, ℕ, Bool, ◌==◌, ◌&&◌, ◌||◌, false, not, Option, OnOk, OnErr};
ghost use Rattle.std.specs.Ordering.{is_eq};
ghost use Rattle.hs_waits.specs.Lines.{AreKept, IsFirstFrom, changed, has};

use std::alloc::{AllocError, Global};
use std::collections::BTreeSet;
use std::marker::Model;

/// The lines that wait for each of some things, in order.
#[derive(Drop)]
pub struct Lines<K: Ord> {
    lines: BTreeSet<(K, u64)>,
}

impl<K: Ord> Model for Lines<K> {
    ghost use Rattle.std.specs.Prelude.{List, ℕ};

    ghost Value = { List (K × ℕ) };

    ghost view = { λ a. a.lines.keys };
}

impl<K: Ord + Drop> Lines<K> {
    /// No line waits. It takes no memory.
    pub fn new(alloc: Global) -> Lines<K>
        ensures { (key : K) (n : ℕ) → has K.cmp result key n ≡ false }
    {
        Lines {
            lines: BTreeSet::new(alloc),
        }
    }

    /// A line waits for this too. Without memory nothing changes.
    pub fn add(&mut self, key: K, line: u64) -> Result<(), AllocError>
        ensures ok { OnOk result ((other : K) (n : ℕ) → has K.cmp self.new other n
            ≡ (is_eq (K.cmp key other) && line == n || has K.cmp self.old other n)) }
        ensures same { OnErr result (self.new ≡ self.old) }
    {
        let Ok(_added) = self.lines.insert((key, line)) else {
            return Err(AllocError);
        };
        Ok(())
    }

    /// A line does not wait for this. It takes no memory.
    pub fn remove(&mut self, key: K, line: u64)
        ensures { (other : K) (n : ℕ) → has K.cmp self.new other n
            ≡ (not (is_eq (K.cmp key other) && line == n) && has K.cmp self.old other n) }
    {
        self.lines.remove(&(key, line));
    }

    /// A line that waited for the first waits for the second instead. Without memory it may wait for
    /// neither.
    pub fn change(&mut self, line: u64, old: Option<K>, new: Option<K>) -> Result<(), AllocError>
        ensures { (keys : ℕ → Option K) → AreKept K.cmp keys self.old → keys line ≡ old
            → OnOk result (AreKept K.cmp (changed line new keys) self.new) }
    {
        if let Some(key) = old {
            self.remove(key, line);
        }
        if let Some(key) = new {
            self.add(key, line)?;
        }
        Ok(())
    }

    /// The least line from this one on that waits for this. None exactly where there is none. It
    /// takes no memory.
    pub fn first(&self, key: K, from: u64) -> Option<u64>
        ensures { IsFirstFrom from (has K.cmp self.now key) result }
    {
        let least = (key, from);
        let Some((other, line)) = self.lines.range(&least..).next() else {
            return None;
        };
        if other.cmp(&least.0).is_eq() {
            Some(*line)
        } else {
            None
        }
    }
}

/// The earlier of two lines, where there are any.
pub fn earlier(a: Option<u64>, b: Option<u64>) -> Option<u64>
    ensures { (from : ℕ) (p q : ℕ → Bool) → IsFirstFrom from p a → IsFirstFrom from q b
        → IsFirstFrom from (λ n. p n || q n) result }
{
    match (a, b) {
        (Some(first), Some(second)) => Some(first.min(second)),
        (Some(first), None) => Some(first),
        (None, other) => other,
    }
}
