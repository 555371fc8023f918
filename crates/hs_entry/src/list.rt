//! Lists of entries.
ghost use Rattle.std.specs.Prelude.{◌≡◌, ◌↔◌, ◌∷◌, ◌++◌, [], length, take, IsTrue, OnOk, OnErr, IsOkUnless};
ghost use Rattle.hs_entry.specs.Entries.{rank_of, Follows, IsPrefix};

use crate::{Entry, EntryFault, Rank};
use hs_limits::ListOf;
use std::alloc::Global;
use std::marker::Model;

/// A list of entries, each under its number.
#[derive(Debug, Drop)]
pub struct EntryList {
    entries: ListOf<(u64, Entry)>,
}

impl Model for EntryList {
    ghost use Rattle.std.specs.Prelude.{List, ℕ};
    ghost use Rattle.hs_entry.specs.declared.entry.Entry.{Entry};

    ghost Value = { List (ℕ × Entry) };

    ghost view = { λ a. a.entries };
}

impl EntryList {
    /// The empty list. It takes no memory.
    pub fn new(alloc: Global) -> Self
        ensures { result ≡ [] }
    {
        EntryList {
            entries: ListOf::new(alloc),
        }
    }

    /// Adds an entry at the end. Without memory the list stays as it was.
    pub fn push(&mut self, number: u64, entry: Entry) -> Result<(), EntryFault>
        requires { Follows self.old number entry }
        ensures ok { OnOk result (self.new ≡ self.old ++ (number, entry) ∷ []) }
        ensures err { IsOkUnless result EntryFault.NoMemory }
        ensures same { OnErr result (self.new ≡ self.old) }
    {
        self.entries.push((number, entry))?;
        Ok(())
    }

    /// The view of the last View or Base, and the number of the last entry. Both are 0 where there
    /// is none. It takes no memory.
    #[tactic(auto, unfolding(crate::specs::Entries::rank_of))]
    pub fn rank(&self) -> Rank
        ensures { result ≡ rank_of self.now }
    {
        let start = Rank { view: 0, number: 0 };
        self.entries
            .as_slice()
            .iter()
            .fold(start, |rank, (number, entry)| rank.after(*number, entry))
    }

    /// Whether the other list begins with this one, frame by frame. It takes no memory.
    pub fn is_prefix_of(&self, other: &EntryList) -> bool
        ensures { IsTrue result ↔ IsPrefix self.now other.now }
    {
        begins(other.entries.as_slice(), self.entries.as_slice())
    }

    /// The number of entries and kept frames.
    pub fn len(&self) -> u64
        ensures { result ≡ length self.now }
    {
        self.entries.len() as u64
    }
}

/// Whether `front` is what `all` begins with.
fn begins(all: &[(u64, Entry)], front: &[(u64, Entry)]) -> bool
    ensures { IsTrue result ↔ (take (length front.now) all.now ≡ front.now) }
{
    if front.len() > all.len() {
        return false;
    }
    for k in 0..front.len() {
        if !same_frame(&all[k], &front[k]) {
            return false;
        }
    }
    true
}

/// Whether the two are the same entry under the same number.
fn same_frame(a: &(u64, Entry), b: &(u64, Entry)) -> bool
    ensures { IsTrue result ↔ (a.now ≡ b.now) }
{
    a.0 == b.0 && a.1.is_same(&b.1)
}
