//! The course of a run.
ghost use Rattle.std.specs.Prelude.{◌≡◌, ℕ};
ghost use Rattle.hs_events.specs.Course.{happened, items_of};
ghost use Rattle.hs_events.specs.Due.{Events, MomentsRise};
ghost use Rattle.hs_core_words.specs.Looking.{front_of, status_of};
ghost use Rattle.hs_core_words.specs.State.{Core};
ghost use Rattle.hs_fold.specs.Good.{good_from, taken_from};
ghost use Rattle.hs_members.specs.Members.{IsPeer, IsShard, is_good_status};
ghost use Rattle.hs_moments.specs.CoreMachine.{core_at};

/// The items that events give tell, of each moment, which peers were good in the core then, and up to
/// which number each shard had taken effect: the core at a moment is that behind the events below it
/// that happened. An event that the journal had no room for has not, and gives no item.
#[tactic(auto, using(crate::proofs::CoreLemmas::good_at, crate::proofs::CoreLemmas::taken_at, crate::proofs::HappenedLemmas::items_happened))]
pub fn the_course_tells_each_moment()
    ensures good { (core : Core) (events : Events) (from to moment peer : ℕ)
        → MomentsRise from events to → IsPeer core.members.shape peer
        → good_from (is_good_status (status_of peer core)) (items_of core events) moment peer
        ≡ is_good_status (status_of peer (core_at core events moment)) }
    ensures taken { (core : Core) (events : Events) (from to moment shard : ℕ)
        → MomentsRise from events to → IsShard core.members.shape shard
        → taken_from (front_of shard core) (items_of core events) moment shard
        ≡ front_of shard (core_at core events moment) }
    ensures happened { (core : Core) (events : Events)
        → items_of core (happened core events) ≡ items_of core events }
{}
