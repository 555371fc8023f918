//! What an event tells.
ghost use Rattle.std.specs.Prelude.{◌≡◌, OnOk};
ghost use Rattle.hs_core_words.specs.Changing.{note};
ghost use Rattle.hs_core_state.specs.Keeping.{KeepsCore};
ghost use Rattle.hs_core_words.specs.Opening.{note_down, note_if_down};
ghost use Rattle.hs_members.specs.Members.{IsPeer};

use crate::State;
use crate::no_memory::NoMemory;
use hs_journal::{JournalEntry, Who};
use hs_limits::PeerStatus;
use hs_model::{Deed, Reply};

impl State {
    /// Tells an entry, at the event's moment.
    pub fn note(&mut self, who: Who, deed: Deed, reply: Reply) -> Result<(), NoMemory>
        ensures ok { OnOk result (self.new ≡ note who deed reply self.old) }
        ensures kept { KeepsCore self.old self.new }
    {
        let entry = JournalEntry {
            who,
            moment: self.moment,
            deed,
            reply,
        };
        self.entries.push(entry)?;
        Ok(())
    }

    /// Tells of each peer that is not good.
    #[tactic(auto, using(crate::proofs::RangeLemmas::each_range_next, crate::proofs::RangeLemmas::each_range_end, crate::proofs::RangeLemmas::each_range_begin))]
    pub(crate) fn note_down(&mut self) -> Result<(), NoMemory>
        ensures { OnOk result (self.new ≡ note_down self.old) }
    {
        let shape = self.shape();
        for peer in 0..shape.shards * shape.copies {
            self.note_if_down(peer)?;
        }
        Ok(())
    }

    /// Tells of a peer that is not good.
    fn note_if_down(&mut self, peer: u8) -> Result<(), NoMemory>
        requires { IsPeer self.old.members.shape peer }
        ensures { OnOk result (self.new ≡ note_if_down peer self.old) }
    {
        if self.status(peer) != PeerStatus::Good {
            self.note(Who::Store, Deed::Nothing, Reply::Down { peer, line: 0 })?;
        }
        Ok(())
    }
}
