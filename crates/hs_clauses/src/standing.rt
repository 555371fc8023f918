//! A run that goes on behind its opening stands.
ghost use Rattle.std.specs.Prelude.{◌≡◌, ◌<◌, ℕ, None};
ghost use Rattle.hs_clauses.specs.Asked.{start_of};
ghost use Rattle.hs_clauses.specs.Shown.{HasItsDisks, IsShown, IsToldAs, OnDisks, RunsSoundly};
ghost use Rattle.hs_events.specs.Found.{first_core};
ghost use Rattle.hs_events.specs.Taken.{peer_count};
ghost use Rattle.hs_promise.specs.Entry.{IsSoundAtEntry};
ghost use Rattle.hs_promise.specs.Found.{IsReadAs};
ghost use Rattle.hs_promise.specs.Machine.{Went};
ghost use Rattle.hs_promise.specs.Run.{Ran, Script};
ghost use Rattle.hs_promise.specs.Story.{Story, all_events};
ghost use Rattle.hs_standing.specs.Run.{MayRun, RunBegins, RunOpens};
ghost use Rattle.hs_standing.specs.Standing.{AllMayKeep};

use crate::each_report_tells_its_block;
use hs_memory::catalogues_in_memory_are_folds;
use hs_standing::{a_line_asks_as_its_command, a_scripts_events_may_come, a_scripts_lines_are_new};
use hs_told::answers_stay_in_order;

/// A run on sound disks whose core goes on behind its opening begins over sound lists, at the store at
/// entry, with any number of copies of each shard (`begins`): these are the lists with which it opens, since
/// a disk that failed as it was read, or is no log, is of a peer that opening set aside. Its reports tell the
/// bytes of their blocks (`soundly`), and each event of such a run may come and leaves it standing
/// (`events`). With one copy of each shard it opens well (`opens`), and its events keep it so (`keeps`).
pub fn a_run_stands()
    ensures opens { (S : Script) (r : Ran) (story : Story)
        → OnDisks S r → IsShown S r story → IsSoundAtEntry S r
        → (first_core S.set story.found).ended ≡ None →
        RunOpens (start_of S r) story.found }
    ensures keeps { (S : Script) (r : Ran) (story : Story)
        → OnDisks S r → IsShown S r story → IsSoundAtEntry S r
        → (first_core S.set story.found).ended ≡ None →
        AllMayKeep (start_of S r) (MayRun (start_of S r)) (first_core S.set story.found)
        (all_events story) }
    ensures soundly { (S : Script) (r : Ran) (story : Story)
        → HasItsDisks S r → IsToldAs S r story → IsSoundAtEntry S r
        → (first_core S.set story.found).ended ≡ None →
        RunsSoundly S r story }
    ensures events { (S : Script) (r : Ran) (story : Story) → RunsSoundly S r story →
        AllMayKeep (start_of S r) (MayRun (start_of S r)) (first_core S.set story.found)
        (all_events story) }
    ensures begins { (S : Script) (r : Ran) (story : Story) → HasItsDisks S r → Went S r story
        → ((peer : ℕ) → peer < peer_count S.set.shape → IsReadAs r story peer)
        → IsSoundAtEntry S r → (first_core S.set story.found).ended ≡ None →
        RunBegins (start_of S r) story.found }
{
    catalogues_in_memory_are_folds();
    each_report_tells_its_block();
    a_line_asks_as_its_command();
    a_scripts_events_may_come();
    a_scripts_lines_are_new();
    answers_stay_in_order();
}
