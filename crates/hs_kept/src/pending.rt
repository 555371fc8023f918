//! What a stop may leave beside what was answered.
ghost use Rattle.std.specs.Prelude.{◌≡◌, None};
ghost use Rattle.hs_clauses.specs.Shown.{IsShown, OnDisks};
ghost use Rattle.hs_events.specs.Found.{first_core};
ghost use Rattle.hs_kept.specs.Pending.{PendsAsAsked};
ghost use Rattle.hs_promise.specs.Entry.{MayStop};
ghost use Rattle.hs_promise.specs.Run.{Ran, Script};
ghost use Rattle.hs_promise.specs.Story.{Story};

use hs_clauses::a_run_stands;
use hs_standing::a_run_goes_on;

/// At each moment of a run whose core goes on behind its opening, with one copy of each shard: each entry
/// that is pending, of whatever images count, is what the operation of its line puts, a root what its
/// handle stands for in the store behind what was answered. Its line has no answer then, and each earlier
/// line of its session has.
pub fn what_is_pending_is_asked()
    ensures { (S : Script) (r : Ran) (story : Story) → OnDisks S r → IsShown S r story
        → (first_core S.set story.found).ended ≡ None → MayStop S r → PendsAsAsked S r }
{
    a_run_stands();
    a_run_goes_on();
}
