//! Entries that wait, lent as a slice and handed out at the front.
ghost use Rattle.std.specs.Prelude.{◌≡◌, ◌∷◌, ◌++◌, ◌-◌, [], count_by, length, take, drop, slice_get, OnOk, OnErr};
ghost use Rattle.std.specs.List.{list_any};
ghost use Rattle.hs_replica.specs.Kinds.{enters, is_block, is_got, is_root, stores_for};
ghost use Rattle.hs_waits.specs.Lines.{IsFirstFrom};

use crate::kinds::{Kinds, place_of};
use hs_entry::Entry;
use hs_rounds::Place;
use std::alloc::{AllocError, Global};
use std::marker::Model;
use std::mem::replace;

/// Entries in order, and how many of them are of each kind. Those that were handed out leave the
/// vector when they are half of it, so that none is moved more than once for each that is handed out.
#[derive(Drop)]
pub(crate) struct Waiting {
    items: Vec<Entry>,
    gone: usize,
    kinds: Kinds,
}

impl Model for Waiting {
    ghost use Rattle.std.specs.Prelude.{List, ◌≤◌, drop, length};
    ghost use Rattle.hs_entry.specs.declared.entry.Entry.{Entry};
    ghost use Rattle.hs_replica.specs.Counting.{Counts};

    ghost Value = { List Entry };

    ghost view = { λ a. drop a.gone a.items.items };

    ghost invariant = { λ a. record {
      gone : a.gone ≤ length a.items.items;
      kinds : Counts a.kinds (drop a.gone a.items.items);
    } };
}

impl Waiting {
    /// No entry. It takes no memory.
    pub(crate) fn new(alloc: Global) -> Waiting
        ensures { result ≡ [] }
    {
        Waiting {
            items: Vec::new(alloc),
            gone: 0,
            kinds: Kinds::new(alloc),
        }
    }

    /// The number of entries. It takes no memory.
    pub(crate) fn len(&self) -> usize
        ensures { result ≡ length self.now }
    {
        self.items.len() - self.gone
    }

    /// The entries. It takes no memory.
    pub(crate) fn as_slice(&self) -> &[Entry]
        ensures { result.now ≡ self.now }
    {
        self.items.as_slice().split_at(self.gone).1
    }

    /// One entry more at the end. Without memory nothing changes.
    pub(crate) fn push(&mut self, entry: Entry) -> Result<(), AllocError>
        ensures ok { OnOk result (self.new ≡ self.old ++ entry ∷ []) }
        ensures same { OnErr result (self.new ≡ self.old) }
    {
        self.items.reserve(1)?;
        self.kinds.add(&entry)?;
        self.items.push(entry)?;
        Ok(())
    }

    /// Takes the first entry out. None exactly where there is none. It takes no memory.
    pub(crate) fn pop_front(&mut self) -> Option<Entry>
        ensures first { result ≡ slice_get self.old 0 }
        ensures rest { self.new ≡ drop 1 self.old }
    {
        if self.gone == self.items.len() {
            return None;
        }
        let entry = replace(&mut self.items[self.gone], Entry::View { view: 0 });
        self.kinds.remove(&entry);
        self.gone += 1;
        self.cut();
        Some(entry)
    }

    /// Keeps the first so many. It takes no memory.
    pub(crate) fn truncate(&mut self, count: usize)
        ensures { self.new ≡ take count self.old }
    {
        while count < self.len() {
            self.drop_last();
        }
    }

    /// Takes the last entry out, and lets it go.
    fn drop_last(&mut self)
        ensures { self.new ≡ take (length self.old - 1) self.old }
    {
        if self.gone == self.items.len() {
            return;
        }
        if let Some(entry) = self.items.pop() {
            self.kinds.remove(&entry);
        }
    }

    /// How many entries are Blocks. It takes no memory.
    pub(crate) fn blocks(&self) -> u64
        ensures { result ≡ count_by is_block self.now }
    {
        self.kinds.blocks
    }

    /// How many entries are Roots. It takes no memory.
    pub(crate) fn roots(&self) -> u64
        ensures { result ≡ count_by is_root self.now }
    {
        self.kinds.roots
    }

    /// The first line from this one on of which one is a Block. None exactly where there is none. It
    /// takes no memory.
    pub(crate) fn first_block(&self, from: u64) -> Option<u64>
        ensures { IsFirstFrom from (λ n. list_any (stores_for n) self.now) result }
    {
        self.kinds.stores.first(from)
    }

    /// Whether one is an Enter of an epoch. It takes no memory.
    #[tactic(auto, using(crate::proofs::CountLemmas::any_counted))]
    pub(crate) fn has_enter(&self, epoch: u64) -> bool
        ensures { result ≡ list_any (enters epoch) self.now }
    {
        self.kinds.enters.count(place_of(epoch)) > 0
    }

    /// Whether one is the Got of a round. It takes no memory.
    #[tactic(auto, using(crate::proofs::CountLemmas::any_counted))]
    pub(crate) fn has_got(&self, from: u8, epoch: u64, round: u32) -> bool
        ensures { result ≡ list_any (is_got from epoch round) self.now }
    {
        self.kinds.gots.count(Place { epoch, round, from }) > 0
    }

    /// Gives the places of what was handed out back where they are half of all.
    fn cut(&mut self)
        ensures { self.new ≡ self.old }
    {
        let left = self.len();
        if self.gone >= left {
            self.items.rotate_left(self.gone);
            self.items.truncate(left);
            self.gone = 0;
        }
    }
}
