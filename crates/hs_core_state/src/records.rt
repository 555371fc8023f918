//! How many root records a shard takes.
ghost use Rattle.std.specs.Prelude.{◌≡◌, OnOk};
ghost use Rattle.hs_core_words.specs.Records.{HasRecordRoom, is_overfull, overfull_shard};
ghost use Rattle.hs_members.specs.Members.{IsShard};

use crate::State;
use crate::no_memory::NoMemory;

/// The most root records of a shard, retained and dropped, with the Roots that wait.
const MOST_RECORDS: u64 = 16_777_216;

impl State {
    /// Whether each shard takes the root records that it has and the Roots that wait; where one does
    /// not, that counts as want of memory. It takes no memory.
    pub fn record_room(&self) -> Result<(), NoMemory>
        ensures { OnOk result (HasRecordRoom self.now) }
    {
        let _shape = self.shape();
        match self.overfull_shard() {
            Some(_) => Err(NoMemory),
            None => Ok(()),
        }
    }

    /// The first shard that has more root records, with the Roots that wait, than a shard takes.
    #[tactic(auto, using(crate::proofs::RangeLemmas::find_range_skips, crate::proofs::RangeLemmas::find_range_found, crate::proofs::RangeLemmas::find_range_end, crate::proofs::RangeLemmas::find_range_begin))]
    fn overfull_shard(&self) -> Option<u8>
        ensures { result ≡ overfull_shard self.now }
    {
        for shard in 0..self.shape().shards {
            if self.is_overfull(shard) {
                return Some(shard);
            }
        }
        None
    }

    /// Whether a shard has more root records, with the Roots that wait, than a shard takes.
    fn is_overfull(&self, shard: u8) -> bool
        requires { IsShard self.now.members.shape shard }
        ensures { result ≡ is_overfull shard self.now }
    {
        let records = self.catalogue(shard).roots().records().len() as u64;
        records.saturating_add(self.group(shard).roots_waiting()) > MOST_RECORDS
    }
}
