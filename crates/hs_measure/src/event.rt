//! What each event of a core keeps.
ghost use Rattle.std.specs.Prelude.{ℕ, take};
ghost use Rattle.hs_core_words.specs.State.{Core};
ghost use Rattle.hs_settled.specs.Deletion.{TellsDeletion};
ghost use Rattle.hs_events.specs.Course.{steps};
ghost use Rattle.hs_events.specs.Due.{Events};
ghost use Rattle.hs_events.specs.Found.{Found, first_core};
ghost use Rattle.hs_measure.specs.Promised.{KeepsPromise};
ghost use Rattle.hs_standing.specs.Run.{MayRun, RunBegins, RunsBefore};
ghost use Rattle.hs_standing.specs.Standing.{AllMayKeep, judging_of};
ghost use Rattle.hs_standing.specs.Start.{Start};

use crate::zeros::zero_blocks_are_right;
use hs_memory::catalogues_in_memory_are_folds;
use hs_settled::{each_core_of_a_run_counts_right, each_event_keeps_the_rule_of_done};
use hs_standing::each_event_is_told;
use hs_told::answers_stay_in_order;

/// Of a run over sound lists, for any number of copies: behind each front of any events that may come,
/// the journal is a legal run of the plain store with its answers, in order, each sweep is exact and each
/// `done` in its place, counts and zero blocks are right, and each line that is answered in its own event
/// has its entry. So it is from between two events of the run on (`events`), and from opening on (`run`),
/// also where the core has ended with one of the events.
pub fn each_event_keeps_the_promise()
    ensures events { (start : Start) (core : Core) (events : Events)
        → RunsBefore start core events → AllMayKeep start (MayRun start) core events
        → TellsDeletion (judging_of start) start.entry core →
        (n : ℕ) → KeepsPromise start (steps core (take n events)) }
    ensures run { (start : Start) (found : Found) (events : Events)
        → RunBegins start found
        → AllMayKeep start (MayRun start) (first_core start.set found) events →
        (n : ℕ) → KeepsPromise start (steps (first_core start.set found) (take n events)) }
{
    catalogues_in_memory_are_folds();
    each_core_of_a_run_counts_right();
    zero_blocks_are_right();
    each_event_keeps_the_rule_of_done();
    each_event_is_told();
    answers_stay_in_order();
}
