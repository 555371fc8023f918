//! What a settle leaves.
ghost use Rattle.std.specs.Prelude.{◌≡◌, ◌*◌, ◌<◌, ℕ, None, true};
ghost use Rattle.hs_core_words.specs.Looking.{shape_of};
ghost use Rattle.hs_core_words.specs.State.{Core};
ghost use Rattle.hs_events.specs.Course.{steps};
ghost use Rattle.hs_events.specs.Due.{Events, is_walk, next_due};
ghost use Rattle.hs_measure.specs.Promised.{IsAtRest};
ghost use Rattle.hs_settled.specs.Moving.{IsMoving};
ghost use Rattle.hs_standing.specs.Run.{MayRun, RunsBefore};
ghost use Rattle.hs_standing.specs.Standing.{AllMayKeep};
ghost use Rattle.hs_standing.specs.Start.{Start};

use hs_deletion::{a_run_goes_on, rounds_run_in_step};
use hs_joint::folds_follow_the_machine;
use hs_standing::each_event_is_told;
use hs_told::answers_stay_in_order;

/// Where the pool has more room than the last two rounds of one lead take: behind the events that are
/// due for a settle, to their end, nothing is open in a run over sound lists, for any number of copies.
/// Each client's line up to the last one has its entry, and the store that the journal leaves is level.
pub fn a_settle_leaves_nothing_open()
    ensures { (start : Start) (core : Core) (line : ℕ) (events : Events)
        → RunsBefore start core events → IsMoving start.set.name core
        → 2 * (shape_of core).shards < core.pool.limit
        → AllMayKeep start (MayRun start) core events
        → (steps core events).ended ≡ None
        → is_walk next_due true line core events ≡ true →
        IsAtRest start (steps core events) }
{
    answers_stay_in_order();
    each_event_is_told();
    folds_follow_the_machine();
    rounds_run_in_step();
    a_run_goes_on();
}
