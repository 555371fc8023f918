//! The end of an event.
ghost use Rattle.std.specs.Prelude.{◌≡◌, OnErr, OnOk};
ghost use Rattle.hs_core_state.specs.Keeping.{KeepsCore};
ghost use Rattle.hs_core_words.specs.Looking.{lost_shard};
ghost use Rattle.hs_core_words.specs.Step.{end_event};

use crate::State;
use crate::no_memory::NoMemory;
use hs_desk::CoreFault;
use std::mem::replace;

impl State {
    /// The first shard without a good peer. It takes no memory.
    #[tactic(auto, using(crate::proofs::RangeLemmas::find_range_skips, crate::proofs::RangeLemmas::find_range_found, crate::proofs::RangeLemmas::find_range_end, crate::proofs::RangeLemmas::find_range_begin))]
    fn lost_shard(&self) -> Option<u8>
        ensures { result ≡ lost_shard self.now }
    {
        for shard in 0..self.shape().shards {
            if !self.members.has_good(shard) {
                return Some(shard);
            }
        }
        None
    }

    /// The event's entries are appended, all or none; where there is no room for them, or a shard has
    /// no good peer, the core has ended.
    pub fn end_event(&mut self) -> Result<(), NoMemory>
        ensures ok { OnOk result (self.new ≡ end_event self.old) }
        ensures kept { OnErr result (KeepsCore self.old self.new) }
        ensures moves { KeepsCore (record self.old {
          journal = self.new.journal;
          refused = self.new.refused;
        }) self.new }
    {
        let entries = replace(&mut self.entries, Vec::new(self.alloc));
        let length = self.journal.entries().len().saturating_add(entries.len());
        if length > self.limits.ops as usize {
            self.refused = entries;
            self.ended = Some(CoreFault::OpsFull);
            return Ok(());
        }
        if self.journal.append(entries).is_err() {
            return Err(NoMemory);
        }
        self.ended = match self.lost_shard() {
            Some(shard) => Some(CoreFault::ShardLost { shard }),
            None => None,
        };
        Ok(())
    }
}
