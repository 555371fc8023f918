//! How a store of one copy a shard stands between two events.
ghost use Rattle.std.specs.Prelude.{◌≡◌, ◌<◌, ◌≤◌, ℕ, None, Some, length, take};
ghost use Rattle.hs_core_words.specs.declared.event.Event.{Event};
ghost use Rattle.hs_core_words.specs.Looking.{first_job, shape_of};
ghost use Rattle.hs_core_words.specs.Step.{step};
ghost use Rattle.hs_desk.specs.declared.job.Job.{Job};
ghost use Rattle.hs_events.specs.Found.{Found, first_core, opened_list};
ghost use Rattle.hs_events.specs.Sane.{IsFromOne, IsSane};
ghost use Rattle.hs_events.specs.Taken.{peer_count};
ghost use Rattle.hs_events.specs.Whole.{Whole, floor, open_whole, reach, step_whole};
ghost use Rattle.hs_fold.specs.Shards.Setting.{Setting};
ghost use Rattle.hs_moments.specs.WholeMachine.{last_of};
ghost use Rattle.hs_moments.specs.Working.{NextJob};

/// A store of one copy a shard opens sane, where its core does not end at once: the opened lists are
/// numbered from 1 on and have no Base.
pub fn what_opens_is_sane()
    ensures { (set : Setting) (found : Found) → set.shape.copies ≡ 1
        → (first_core set found).ended ≡ None
        → ((shard : ℕ) → shard < set.shape.shards → IsFromOne (opened_list set found shard))
        → length found.good ≡ peer_count set.shape → IsSane (open_whole set found) }
{}

/// A store of one copy a shard that is sane stays so by every event, until the core ends.
#[tactic(auto, using(crate::proofs::SaneLemmas::sane_stays))]
pub fn what_is_sane_stays_so()
    ensures { (c : Whole) (event : Event) (moment : ℕ) → IsSane c
        → (step event moment c.core).ended ≡ None → IsSane (step_whole event moment c) }
{}

/// Each job of a peer speaks of the entry that comes next on its disk, or reads; and what is sealed is
/// within the peer's list, of which the first entries end in the number of how many they are.
#[tactic(auto, using(crate::proofs::WorkLemmas::next_job, crate::proofs::WorkLemmas::floor_within, crate::proofs::WorkLemmas::last_of_front))]
pub fn each_job_is_the_next()
    ensures job { (c : Whole) (peer : ℕ) (job : Job) → IsSane c → first_job peer c.core ≡ Some job
        → NextJob c peer job }
    ensures within { (c : Whole) (peer : ℕ) → IsSane c → peer < (shape_of c.core).shards
        → floor c peer ≤ length (reach c peer) }
    ensures numbered { (c : Whole) (peer count : ℕ) → IsSane c → peer < (shape_of c.core).shards
        → count ≤ length (reach c peer) → last_of (take count (reach c peer)) ≡ count }
{}
