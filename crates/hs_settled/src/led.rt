//! That shard 0 enters its epochs by lines alone.
ghost use Rattle.std.specs.Prelude.{◌≡◌, ◌++◌, Some};
ghost use Rattle.hs_desk.specs.declared.fault.CoreFault.{CoreFault};
ghost use Rattle.hs_settled.specs.Calm.{AreLed};
ghost use Rattle.hs_events.specs.Found.{first_core};
ghost use Rattle.hs_promise.specs.Entry.{entry_store};
ghost use Rattle.hs_promise.specs.Machine.{NeverOpened, Went};
ghost use Rattle.hs_promise.specs.Run.{Ran, Script};
ghost use Rattle.hs_promise.specs.Story.{Story, all_events};
ghost use Rattle.hs_standing.specs.Run.{MayRun, RunBegins};
ghost use Rattle.hs_standing.specs.Standing.{AllMayKeep};
ghost use Rattle.hs_standing.specs.Start.{Start};

use crate::the_first_shard_enters_for_a_line;

/// No entry that a run tells, in its journal or with what found it full, tells that shard 0 entered an
/// epoch by itself: each Enter that waits in its list is a line's, and what the logs had took effect
/// before. So it is where the run opens over sound lists and its events may come (`went`), where its
/// core ended as it opened (`ended`), and where no core was opened (`never`).
pub fn shard_0_is_led_by_lines()
    ensures went { (S : Script) (r : Ran) (story : Story)
        → Went S r story
        → let start : Start = record { set = S.set; commands = S.commands; entry = entry_store S r } in
        RunBegins start story.found
        → AllMayKeep start (MayRun start) (first_core S.set story.found) (all_events story) →
        AreLed (r.journal ++ r.refused) }
    ensures ended { (S : Script) (r : Ran) (story : Story) (fault : CoreFault)
        → Went S r story → (first_core S.set story.found).ended ≡ Some fault →
        AreLed (r.journal ++ r.refused) }
    ensures never { (r : Ran) → NeverOpened r → AreLed (r.journal ++ r.refused) }
{
    the_first_shard_enters_for_a_line();
}
