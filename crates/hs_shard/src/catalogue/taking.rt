//! Which entries a catalogue can take.
ghost use Rattle.std.specs.Prelude.{◌≡◌, IsTrue};
ghost use Rattle.hs_shard.specs.Apply.{MayTake};

use crate::catalogue::Catalogue;
use hs_entry::Entry;
use hs_limits::Address;
use hs_rounds::are_changes;

impl Catalogue {
    /// Whether `apply` may be called: a Block comes with an address, and its number is that of no
    /// present block; a Got has its deltas in order. It takes no memory.
    pub fn may_take(&self, number: u64, entry: &Entry, named: Option<Address>) -> bool
        ensures only { IsTrue result → MayTake number entry.now named self.now }
        ensures all { MayTake number entry.now named self.now → IsTrue result }
    {
        match entry {
            Entry::Block { .. } => named.is_some() && self.blocks.pointers(number).is_none(),
            Entry::Got { deltas, .. } => are_changes(deltas.as_slice()),
            Entry::View { .. }
            | Entry::Mark { .. }
            | Entry::Root { .. }
            | Entry::Drop { .. }
            | Entry::Enter { .. }
            | Entry::Base { .. }
            | Entry::KeptBlock { .. }
            | Entry::KeptRoot { .. }
            | Entry::KeptRound { .. } => true,
        }
    }
}
