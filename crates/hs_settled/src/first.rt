//! What shard 0 is never told to do by itself.
ghost use Rattle.std.specs.List.{AllByRecursion};
ghost use Rattle.hs_events.specs.Course.{steps};
ghost use Rattle.hs_events.specs.Due.{Events};
ghost use Rattle.hs_events.specs.Found.{Found, first_core};
ghost use Rattle.hs_settled.specs.Settled.{IsNoFirst};
ghost use Rattle.hs_standing.specs.Run.{MayRun, RunBegins};
ghost use Rattle.hs_standing.specs.Standing.{AllMayKeep};
ghost use Rattle.hs_standing.specs.Start.{Start};
ghost use Rattle.hs_told.specs.InTurn.{told_of};

use hs_memory::catalogues_in_memory_are_folds;

/// Of a run over sound lists no entry tells that shard 0 entered an epoch by itself: a client's line asks for each of its Enters, and is told of it. So it is of the journal,
/// and of what found it full.
pub fn the_first_shard_enters_for_a_line()
    ensures { (start : Start) (found : Found) (events : Events)
        → RunBegins start found
        → AllMayKeep start (MayRun start) (first_core start.set found) events →
        AllByRecursion IsNoFirst (told_of (steps (first_core start.set found) events)) }
{
    catalogues_in_memory_are_folds();
}
