//! How many entries a core tells.
ghost use Rattle.std.specs.Prelude.{◌≤◌, ℕ, Option, take};
ghost use Rattle.hs_events.specs.Course.{steps};
ghost use Rattle.hs_events.specs.Due.{Events};
ghost use Rattle.hs_events.specs.Found.{Found, first_core};
ghost use Rattle.hs_limits.specs.declared.shape.Shape.{Shape};
ghost use Rattle.hs_model.specs.declared.command.Command.{Command};
ghost use Rattle.hs_promise.specs.Completes.{entries_most};
ghost use Rattle.hs_room.specs.Room.{HasRoom, starts_in};
ghost use Rattle.hs_settled.specs.Noted.{AllAreOwn};
ghost use Rattle.hs_standing.specs.Run.{MayRun, RunBegins};
ghost use Rattle.hs_standing.specs.Standing.{AllMayKeep};
ghost use Rattle.hs_standing.specs.Start.{Start};

use hs_measure::each_event_keeps_the_promise;
use hs_memory::catalogues_in_memory_are_folds;
use hs_settled::the_first_shard_enters_for_a_line;

/// Of a run over sound lists, for any number of copies, whose events may come and are of their lines:
/// behind each front of them what was told, with what found the journal full, has at most so many entries
/// as the lines up to the last one have room for (one a line, twice as many for a shard and one for the
/// store as epochs may pass, and one a peer), and one more for each `start` line that was not refused
/// (`starts_in`). So the journal was not full where its limit is that many, whether disks failed or not
/// (`events`). A later line has room for no fewer (`rises`).
pub fn a_journal_has_room()
    ensures events { (start : Start) (found : Found) (events : Events)
        → RunBegins start found
        → AllMayKeep start (MayRun start) (first_core start.set found) events
        → AllAreOwn start.commands (first_core start.set found) events →
        (n : ℕ) → HasRoom start (starts_in (first_core start.set found) (take n events))
        (steps (first_core start.set found) (take n events)) }
    ensures rises { (commands : ℕ → Option Command) (shape : Shape) (low high : ℕ) → low ≤ high →
        entries_most commands shape low ≤ entries_most commands shape high }
{
    each_event_keeps_the_promise();
    the_first_shard_enters_for_a_line();
    catalogues_in_memory_are_folds();
}
