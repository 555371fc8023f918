//! One event, with its items of the course.
ghost use Rattle.std.specs.Prelude.{◌≡◌, ◌≤◌, ℕ, None, OnOk, false};
ghost use Rattle.hs_cluster.specs.Calls.{Does, done_of};
ghost use Rattle.hs_cluster.specs.Growing.{is_start};
ghost use Rattle.hs_core_words.specs.Calls.{IsNextLine, last_line_after};
ghost use Rattle.hs_core_words.specs.Looking.{status_of};
ghost use Rattle.hs_members.specs.Members.{is_joining};

use crate::{Cluster, ClusterFault};
use hs_core_words::Event;
use hs_desk::CoreFault;
use hs_events::{begun_line, fronts_of, goods_of, note_event};

impl Cluster {
    /// Does one event at a moment, and notes its items of the course, for which room is made before
    /// it. Where the journal had no room for its entries it has not happened, and there are none.
    #[tactic(auto, using(crate::proofs::EventLemmas::nothing_done, crate::proofs::EventLemmas::one_done, hs_events::proofs::GoingLemmas::step_goes))]
    pub(crate) fn step(&mut self, event: Event, moment: u64) -> Result<(), ClusterFault>
        requires going { self.old.core.ended ≡ None }
        requires moment { self.old.core.moment ≤ moment }
        requires line { IsNextLine self.old.core event }
        ensures does { Does (done_of result (event, moment)) self.old self.new result }
        ensures logs { self.new.logs ≡ self.old.logs }
        ensures cache { self.new.cache ≡ self.old.cache }
        ensures shape { self.new.core.members.shape ≡ self.old.core.members.shape }
        ensures moment { self.new.core.moment ≤ moment }
        ensures last_line { OnOk result
            (self.new.core.progress.last_line ≡ last_line_after event self.old.core) }
        // Nobody begins to join but by the line that starts it.
        ensures joins { (peer : ℕ) → is_start peer event ≡ false
            → is_joining (status_of peer self.old.core) ≡ false
            → OnOk result (is_joining (status_of peer self.new.core) ≡ false) }
    {
        let shape = self.core.shape();
        let peers = shape.shards * shape.copies;
        self.course
            .reserve(1 + usize::from(peers) + usize::from(shape.shards))?;
        let goods = goods_of(self.alloc, &self.core, peers)?;
        let fronts = fronts_of(self.alloc, &self.core, shape.shards)?;
        let line = begun_line(&event);
        match self.core.step(event, moment) {
            Ok(()) => {
                note_event(&self.core, line, &goods, &fronts, &mut self.course, moment);
                Ok(())
            }
            Err(CoreFault::OpsFull) => Err(ClusterFault::OpsFull),
            Err(CoreFault::ShardLost { shard }) => {
                note_event(&self.core, line, &goods, &fronts, &mut self.course, moment);
                Err(ClusterFault::ShardLost { shard })
            }
            Err(CoreFault::NoMemory) => Err(ClusterFault::NoMemory),
        }
    }
}
