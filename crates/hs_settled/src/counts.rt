//! What the counts of a core are worth, behind each event.
ghost use Rattle.std.specs.Prelude.{◌≡◌, ℕ, List, [], take};
ghost use Rattle.hs_answered.specs.Telling.{Judging};
ghost use Rattle.hs_core_words.specs.State.{Core};
ghost use Rattle.hs_settled.specs.Counts.{CountsRight};
ghost use Rattle.hs_events.specs.Course.{steps};
ghost use Rattle.hs_events.specs.Due.{Events};
ghost use Rattle.hs_events.specs.Found.{Found, first_core};
ghost use Rattle.hs_fold.specs.Runs.Facts.{Catalogue as Folded};
ghost use Rattle.hs_laws.specs.Valid.{IsValid};
ghost use Rattle.hs_standing.specs.Copies.{AllComeOn};
ghost use Rattle.hs_standing.specs.Held.{GivesAddresses};
ghost use Rattle.hs_standing.specs.Legal.{IsStanding, MayStand};
ghost use Rattle.hs_model.specs.Store.{Store};
ghost use Rattle.hs_standing.specs.Run.{MayRun, RunBegins};
ghost use Rattle.hs_standing.specs.Standing.{AllMayKeep};
ghost use Rattle.hs_standing.specs.Start.{Start};

use hs_deletion::{
    counts_of_catalogues_are_right, each_unreached_block_is_found, no_reached_block_is_a_wrong_zero,
};
use hs_memory::catalogues_in_memory_are_folds;
use hs_sound::histories_are_counted;
use hs_standing::each_event_is_told;

/// Of a core that stands each count is how often its address is named in all catalogues, but for the
/// rounds that are sent and not applied; each round in its pool is one that was sent, and so is what
/// each Got tells that waits; a zero block that the run of its shard's epoch reaches was given in that
/// epoch; and where a shard completes the last round of a run, each of its blocks that is older and out
/// of reach is a zero block (`stands`). So it is of each core of a run over sound lists: behind each
/// front of any events that may come, also where the core has ended with one of them (`run`); and of each
/// core behind events that may come to one that stands, as long as the core goes on with its seats, what
/// is known of copies is within their lists, and the root records and the Roots that wait are few (`copies`).
pub fn each_core_of_a_run_counts_right()
    ensures stands { (by : Judging) (start : Store) (core : Core) (cs : List Folded)
        → IsStanding by start core cs → CountsRight by.name core }
    ensures copies { (by : Judging) (start : Store) (core : Core) (events : Events)
        (cs : List Folded)
        → GivesAddresses by.name → IsValid start → core.refused ≡ [] → core.entries ≡ []
        → AllComeOn (MayStand by start) core events → IsStanding by start core cs →
        (n : ℕ) → CountsRight by.name (steps core (take n events)) }
    ensures run { (start : Start) (found : Found) (events : Events)
        → RunBegins start found
        → AllMayKeep start (MayRun start) (first_core start.set found) events →
        (n : ℕ) → CountsRight start.set.name
        (steps (first_core start.set found) (take n events)) }
{
    counts_of_catalogues_are_right();
    no_reached_block_is_a_wrong_zero();
    each_unreached_block_is_found();
    histories_are_counted();
    each_event_is_told();
    catalogues_in_memory_are_folds();
}
