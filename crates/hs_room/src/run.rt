//! A run whose journal has room.
ghost use Rattle.std.specs.Prelude.{◌≡◌, Some};
ghost use Rattle.hs_clauses.specs.Shown.{RunsSoundly};
ghost use Rattle.hs_desk.specs.declared.fault.CoreFault.{CoreFault};
ghost use Rattle.hs_events.specs.Found.{first_core};
ghost use Rattle.hs_promise.specs.Completes.{FullBeyond};
ghost use Rattle.hs_promise.specs.Machine.{NeverOpened, Went};
ghost use Rattle.hs_promise.specs.Run.{Ran, Script};
ghost use Rattle.hs_promise.specs.Story.{Story};

use hs_clauses::a_run_stands;
use hs_measure::each_event_keeps_the_promise;
use hs_memory::catalogues_in_memory_are_folds;
use hs_settled::the_first_shard_enters_for_a_line;

/// A run of a script that begins over sound lists, and whose reports tell the bytes of their blocks, with any
/// number of copies, whether disks fail or not, ends as OpsFull only where the journal's limit has no room for the
/// lines that were begun (`soundly`): one entry a line, twice as many for a shard and one for the store as epochs
/// may pass, and one a peer. A `start` line that was not refused has no entry, so that its note, which is one more,
/// has that room. So it is of a run whose core ended as it opened (`ended`), of which only notes were told, and of
/// one that opened no core (`never`).
pub fn a_run_with_room_is_not_full()
    ensures soundly { (S : Script) (r : Ran) (story : Story) → RunsSoundly S r story → FullBeyond S r }
    ensures ended { (S : Script) (r : Ran) (story : Story) (fault : CoreFault) → Went S r story
        → (first_core S.set story.found).ended ≡ Some fault → FullBeyond S r }
    ensures never { (S : Script) (r : Ran) → NeverOpened r → FullBeyond S r }
{
    a_run_stands();
    each_event_keeps_the_promise();
    the_first_shard_enters_for_a_line();
    catalogues_in_memory_are_folds();
}
