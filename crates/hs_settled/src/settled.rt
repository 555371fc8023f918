//! What a settle has done that was gone past.
ghost use Rattle.std.specs.Prelude.{◌≡◌, None};
ghost use Rattle.hs_events.specs.Found.{first_core};
ghost use Rattle.hs_promise.specs.Answers.{Answers};
ghost use Rattle.hs_promise.specs.Completes.{SettlesEach};
ghost use Rattle.hs_promise.specs.Entry.{entry_store};
ghost use Rattle.hs_promise.specs.Machine.{Went};
ghost use Rattle.hs_promise.specs.Run.{Ran, Script};
ghost use Rattle.hs_promise.specs.Story.{Story, all_events};
ghost use Rattle.hs_standing.specs.Run.{MayRun, RunBegins};
ghost use Rattle.hs_standing.specs.Standing.{AllMayKeep};
ghost use Rattle.hs_standing.specs.Start.{Start};

use hs_deletion::{a_run_goes_on, rounds_run_in_step};
use hs_joint::folds_follow_the_machine;
use hs_memory::catalogues_in_memory_are_folds;
use hs_standing::each_event_is_told;

/// Where the pool has more room than the last two rounds of one lead take, each settle of a run that
/// was gone past has answered every earlier client's line before anything of a later line, and at the
/// first entry of a later line the shards are level. So it is
/// of a run of any number of copies that opens over sound lists, at the store at entry, and whose events
/// may come.
pub fn each_settle_settles()
    ensures { (S : Script) (r : Ran) (story : Story)
        → let start : Start = record { set = S.set; commands = S.commands; entry = entry_store S r } in
        Went S r story → S.commands 0 ≡ None
        → RunBegins start story.found
        → AllMayKeep start (MayRun start) (first_core S.set story.found) (all_events story)
        → Answers S (entry_store S r) r.journal → SettlesEach S (entry_store S r) r }
{
    catalogues_in_memory_are_folds();
    each_event_is_told();
    folds_follow_the_machine();
    rounds_run_in_step();
    a_run_goes_on();
}
