//! How many of some entries are of each kind.
ghost use Rattle.std.specs.Prelude.{[], ◌≡◌, OnErr, OnOk};
ghost use Rattle.hs_replica.specs.Counting.{Adds, Counts, Holds, at_epoch};

use crate::stores::Stores;
use crate::tally::Tally;
use hs_entry::Entry;
use hs_rounds::Place;
use std::alloc::{AllocError, Global};

/// How many of some entries are Blocks and Roots, for which lines they store blocks, which epochs they
/// enter, and of which rounds they are Gots.
#[derive(Drop)]
pub struct Kinds {
    pub blocks: u64,
    pub roots: u64,
    pub stores: Stores,
    pub enters: Tally,
    pub gots: Tally,
}

impl Kinds {
    /// No entry. It takes no memory.
    pub(crate) fn new(alloc: Global) -> Kinds
        ensures { Counts result [] }
    {
        Kinds {
            blocks: 0,
            roots: 0,
            stores: Stores::new(alloc),
            enters: Tally::new(alloc),
            gots: Tally::new(alloc),
        }
    }

    /// One entry more. Without memory nothing changes.
    #[tactic(auto, using(crate::proofs::KindLemmas::enter_once, crate::proofs::KindLemmas::got_once))]
    pub(crate) fn add(&mut self, entry: &Entry) -> Result<(), AllocError>
        ensures ok { OnOk result (Adds entry.now self.old self.new) }
        ensures same { OnErr result (self.new ≡ self.old) }
    {
        match entry {
            Entry::Block { op, .. } => {
                let Some(blocks) = self.blocks.checked_add(1) else {
                    return Err(AllocError);
                };
                self.stores.add(*op)?;
                self.blocks = blocks;
                Ok(())
            }
            Entry::Root { .. } => {
                let Some(roots) = self.roots.checked_add(1) else {
                    return Err(AllocError);
                };
                self.roots = roots;
                Ok(())
            }
            Entry::Enter { epoch, .. } => self.enters.add(place_of(*epoch)),
            Entry::Got {
                sender,
                epoch,
                round,
                ..
            } => self.gots.add(Place {
                epoch: *epoch,
                round: *round,
                from: *sender,
            }),
            Entry::View { .. }
            | Entry::Mark { .. }
            | Entry::Drop { .. }
            | Entry::Base { .. }
            | Entry::KeptBlock { .. }
            | Entry::KeptRoot { .. }
            | Entry::KeptRound { .. } => Ok(()),
        }
    }

    /// One entry less, where it was counted. It takes no memory.
    #[tactic(auto, using(crate::proofs::KindLemmas::enter_once, crate::proofs::KindLemmas::got_once))]
    pub(crate) fn remove(&mut self, entry: &Entry)
        ensures { Holds entry.now self.old → Adds entry.now self.new self.old }
    {
        match entry {
            Entry::Block { op, .. } => {
                self.stores.remove(*op);
                self.blocks = self.blocks.saturating_sub(1);
            }
            Entry::Root { .. } => self.roots = self.roots.saturating_sub(1),
            Entry::Enter { epoch, .. } => self.enters.remove(place_of(*epoch)),
            Entry::Got {
                sender,
                epoch,
                round,
                ..
            } => self.gots.remove(Place {
                epoch: *epoch,
                round: *round,
                from: *sender,
            }),
            Entry::View { .. }
            | Entry::Mark { .. }
            | Entry::Drop { .. }
            | Entry::Base { .. }
            | Entry::KeptBlock { .. }
            | Entry::KeptRoot { .. }
            | Entry::KeptRound { .. } => {}
        }
    }
}

/// Where an Enter of an epoch, or a Block of a line, is counted.
pub(crate) fn place_of(epoch: u64) -> Place
    ensures { result ≡ at_epoch epoch }
{
    Place {
        epoch,
        round: 0,
        from: 0,
    }
}
