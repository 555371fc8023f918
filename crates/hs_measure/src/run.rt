//! What each core of a run on disks keeps.
ghost use Rattle.hs_clauses.specs.Shown.{IsShown, OnDisks, RunsSoundly};
ghost use Rattle.hs_promise.specs.Deletes.{Deletes};
ghost use Rattle.hs_promise.specs.Entry.{IsSoundAtEntry, entry_store};
ghost use Rattle.hs_promise.specs.Run.{Ran, Script};
ghost use Rattle.hs_promise.specs.Story.{Story};
ghost use Rattle.hs_measure.specs.Served.{EachCoreKeeps};

use crate::event::each_event_keeps_the_promise;
use hs_clauses::a_run_stands;

/// Of a run of a script that begins over sound lists, and whose reports tell the bytes of their blocks, for
/// any number of copies: behind each front of its events the core keeps what is promised of answers, deletion
/// and completeness, so that its counts and zero blocks are right at each moment (`soundly`); and each sweep
/// that the journal of the run tells is exact, and `done` is in its place (`deletes`). So it is of a run on
/// sound disks, with one copy of each shard, whose core goes on behind its opening (`disks`).
pub fn each_core_of_a_run_keeps_the_promise()
    ensures soundly { (S : Script) (r : Ran) (story : Story)
        → RunsSoundly S r story → EachCoreKeeps S r story }
    ensures deletes { (S : Script) (r : Ran) (story : Story)
        → RunsSoundly S r story → Deletes S (entry_store S r) r }
    ensures disks { (S : Script) (r : Ran) (story : Story)
        → OnDisks S r → IsShown S r story → IsSoundAtEntry S r → EachCoreKeeps S r story }
{
    each_event_keeps_the_promise();
    a_run_stands();
}
