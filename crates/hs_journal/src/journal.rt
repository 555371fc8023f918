//! The journal as a list with a limit.
ghost use Rattle.std.specs.Prelude.{◌≡◌, ◌∷◌, ◌++◌, ◌<◌, ◌≤◌, ◌↔◌, ◌+◌, [], length, IsTrue, OnOk, OnErr};
ghost use Rattle.hs_journal.specs.declared.fault.JournalFault.TheVariants as fault;

use crate::{JournalEntry, JournalFault};
use std::alloc::{AllocError, Global};
use std::marker::Model;

/// The entries so far, in the order in which they were made, and how many there may be.
#[derive(Debug, Drop)]
pub struct Journal {
    entries: Vec<JournalEntry>,
    limit: u32,
}

impl Model for Journal {
    ghost use Rattle.hs_journal.specs.JournalState.{JournalState};

    ghost Value = { JournalState };

    ghost view = { λ a. record { entries = a.entries.items; limit = a.limit } };
}

impl Journal {
    /// An empty journal that takes `limit` entries. It takes no memory.
    pub fn new(alloc: Global, limit: u32) -> Journal
        ensures entries { result.entries ≡ [] }
        ensures limit { result.limit ≡ limit }
    {
        Journal {
            entries: Vec::new(alloc),
            limit,
        }
    }

    /// The entries in order.
    pub fn entries(&self) -> &[JournalEntry]
        ensures { result.now ≡ self.now.entries }
    {
        self.entries.as_slice()
    }

    /// Whether there are as many entries as the limit.
    pub fn is_full(&self) -> bool
        ensures { IsTrue result ↔ self.now.limit ≤ length self.now.entries }
    {
        u64::from(self.limit) <= self.entries.len() as u64
    }

    /// Adds an entry at the end. The entries before it stay as they are, and a fault changes nothing.
    pub fn push(&mut self, entry: JournalEntry) -> Result<(), JournalFault>
        ensures ok { OnOk result (self.new.entries ≡ self.old.entries ++ entry ∷ []) }
        ensures room { OnOk result (length self.old.entries < self.old.limit) }
        ensures full { self.old.limit ≤ length self.old.entries → result ≡ Err fault.OpsFull }
        ensures only_full { result ≡ Err fault.OpsFull → self.old.limit ≤ length self.old.entries }
        ensures same { OnErr result (self.new.entries ≡ self.old.entries) }
        ensures limit { self.new.limit ≡ self.old.limit }
    {
        if self.is_full() {
            return Err(JournalFault::OpsFull);
        }
        match push_item(&mut self.entries, entry) {
            Ok(()) => Ok(()),
            Err(_) => Err(JournalFault::NoMemory),
        }
    }

    /// Adds some entries at the end, in order: all of them, or none. The entries before them stay as
    /// they are, and a fault changes nothing.
    pub fn append(&mut self, entries: Vec<JournalEntry>) -> Result<(), JournalFault>
        ensures ok { OnOk result (self.new.entries ≡ self.old.entries ++ entries.items) }
        ensures room { OnOk result
            (length self.old.entries + length entries.items ≤ self.old.limit) }
        ensures full { self.old.limit < length self.old.entries + length entries.items
            → result ≡ Err fault.OpsFull }
        ensures only_full { result ≡ Err fault.OpsFull
            → self.old.limit < length self.old.entries + length entries.items }
        ensures same { OnErr result (self.new.entries ≡ self.old.entries) }
        ensures limit { self.new.limit ≡ self.old.limit }
    {
        let mut more = entries;
        if self.entries.len().saturating_add(more.len()) > self.limit as usize {
            return Err(JournalFault::OpsFull);
        }
        if self.entries.append(&mut more).is_err() {
            return Err(JournalFault::NoMemory);
        }
        Ok(())
    }
}

/// Adds an item at the end. Without memory nothing changes.
fn push_item<T: Drop>(items: &mut Vec<T>, item: T) -> Result<(), AllocError>
    ensures ok { OnOk result (items.new.items ≡ items.old.items ++ item ∷ []) }
    ensures same { OnErr result (items.new.items ≡ items.old.items) }
{
    items.push(item)?;
    Ok(())
}
