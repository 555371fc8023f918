//! What is left where a settle has come to its end.
ghost use Rattle.std.specs.Prelude.{◌≡◌, ◌*◌, ◌<◌, ℕ, None, Some};
ghost use Rattle.hs_events.specs.Found.{first_core};
ghost use Rattle.hs_model.specs.declared.command.Command.TheVariants as command;
ghost use Rattle.hs_promise.specs.Lost.{IsPast};
ghost use Rattle.hs_promise.specs.Entry.{entry_store};
ghost use Rattle.hs_promise.specs.Machine.{Went};
ghost use Rattle.hs_promise.specs.Run.{Ran, Script};
ghost use Rattle.hs_promise.specs.Story.{Story, all_events};
ghost use Rattle.hs_quiet.specs.Settled.{IsLeft};
ghost use Rattle.hs_settled.specs.Settled.{NothingOpen, core_behind};
ghost use Rattle.hs_standing.specs.Run.{MayRun, RunBegins};
ghost use Rattle.hs_standing.specs.Standing.{AllMayKeep};
ghost use Rattle.hs_standing.specs.Start.{Start};

use hs_deletion::{a_run_goes_on, rounds_run_in_step};
use hs_joint::folds_follow_the_machine;
use hs_memory::catalogues_in_memory_are_folds;
use hs_standing::each_event_is_told;

/// Where the pool has more room than the last two rounds of one lead take, behind a settle that was gone
/// past no peer has a job or is joining, no message is under way (`IsLeft` of hs_quiet), and nothing is
/// open. Premises are those of `each_settle_settles`.
pub fn a_settle_comes_to_rest()
    ensures { (S : Script) (r : Ran) (story : Story) (line : ℕ)
        → let start : Start = record { set = S.set; commands = S.commands; entry = entry_store S r } in
        Went S r story → S.commands 0 ≡ None
        → RunBegins start story.found
        → AllMayKeep start (MayRun start) (first_core S.set story.found) (all_events story)
        → 2 * S.set.shape.shards < S.set.limits.pool
        → S.commands line ≡ Some command.Settle → IsPast r line
        → IsLeft (core_behind S story line) × NothingOpen (core_behind S story line) }
{
    catalogues_in_memory_are_folds();
    each_event_is_told();
    folds_follow_the_machine();
    rounds_run_in_step();
    a_run_goes_on();
}
