//! Where the journal answers each line.
ghost use Rattle.std.specs.Prelude.{◌≡◌, ◌≤◌, ℕ, [], length, take, OnOk, Some, None, if◌then◌else◌};
ghost use Rattle.std.specs.Option.{option_or};
ghost use Rattle.hs_book.specs.Answers.{Indexes, answers_line, place_in};

use hs_journal::{JournalEntry, Who};
use std::alloc::{AllocError, Global};
use std::collections::BTreeMap;
use std::marker::Model;

/// By line, the place of the first entry that answers it.
#[derive(Drop)]
pub(crate) struct Places {
    places: BTreeMap<u64, usize>,
}

impl Model for Places {
    ghost use Rattle.std.specs.Prelude.{List, ℕ};

    ghost Value = { List (ℕ × ℕ) };

    ghost view = { λ a. a.places.entries };
}

impl Places {
    /// No place. It takes no memory.
    pub(crate) fn new(alloc: Global) -> Places
        ensures { Indexes [] result }
    {
        Places {
            places: BTreeMap::new(alloc),
        }
    }

    /// The place for a line. None exactly where there is none. It takes no memory.
    pub(crate) fn of(&self, line: u64) -> Option<usize>
        ensures { result ≡ place_in line self.now }
    {
        self.places.get(&line).copied()
    }

    /// Notes the entries of a journal from a place on.
    pub(crate) fn note(&mut self, journal: &[JournalEntry], from: usize) -> Result<(), AllocError>
        requires within { from ≤ length journal.now }
        requires before { Indexes (take from journal.now) self.old }
        ensures { OnOk result (Indexes journal.now self.new) }
    {
        for place in from..journal.len() {
            self.note_one(&journal[place], place)?;
        }
        Ok(())
    }

    /// Notes the entry at a place.
    fn note_one(&mut self, entry: &JournalEntry, place: usize) -> Result<(), AllocError>
        ensures { OnOk result ((line : ℕ) → place_in line self.new
            ≡ option_or (place_in line self.old) (if answers_line line entry.now then Some place else None)) }
    {
        let Who::Line(line) = entry.who else {
            return Ok(());
        };
        if self.places.contains_key(&line) {
            return Ok(());
        }
        if self.places.insert(line, place).is_err() {
            return Err(AllocError);
        }
        Ok(())
    }
}
