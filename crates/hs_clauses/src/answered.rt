//! A run is answered as the plain store does.
ghost use Rattle.hs_clauses.specs.Shown.{IsToldRun, RunsSoundly, RunsTold};
ghost use Rattle.hs_laws.specs.Valid.{IsValid};
ghost use Rattle.hs_promise.specs.Answers.{Answers};
ghost use Rattle.hs_promise.specs.Causes.{FullCause};
ghost use Rattle.hs_promise.specs.Entry.{IsSoundAtEntry, entry_store};
ghost use Rattle.hs_promise.specs.Run.{Ran, Script};
ghost use Rattle.hs_promise.specs.Story.{Story};

use crate::each_report_tells_its_block;
use hs_memory::catalogues_in_memory_are_folds;
use hs_standing::{
    a_line_asks_as_its_command, a_script_is_answered, a_scripts_events_may_come,
    a_scripts_lines_are_new,
};
use hs_told::answers_stay_in_order;

/// The store at entry of sound disks is valid (`valid`). What a run answers on them, with any number of
/// copies of each shard, is a legal run of the plain store from there, with its answers, in the order of a
/// journal (`answers`); so it is with what was refused, where the journal was full (`full`). A run that
/// opened no core, or one that ended with its opening, has answered nothing. So it is of a run that begins
/// over sound lists, and whose reports tell the bytes of their blocks (`soundly`, `refused`); and these do
/// so where each tells what the list of the peer that was asked has (`told`).
pub fn a_run_is_answered()
    ensures valid { (S : Script) (r : Ran) → IsSoundAtEntry S r → IsValid (entry_store S r) }
    ensures answers { (S : Script) (r : Ran)
        → IsToldRun S r → IsSoundAtEntry S r → Answers S (entry_store S r) r.journal }
    ensures full { (S : Script) (r : Ran)
        → IsToldRun S r → IsSoundAtEntry S r → FullCause S (entry_store S r) r }
    ensures soundly { (S : Script) (r : Ran) (story : Story)
        → RunsSoundly S r story → Answers S (entry_store S r) r.journal }
    ensures refused { (S : Script) (r : Ran) (story : Story)
        → RunsSoundly S r story → FullCause S (entry_store S r) r }
    ensures told { (S : Script) (r : Ran) (story : Story) → RunsTold S r story → RunsSoundly S r story }
{
    a_script_is_answered();
    catalogues_in_memory_are_folds();
    each_report_tells_its_block();
    a_line_asks_as_its_command();
    a_scripts_events_may_come();
    a_scripts_lines_are_new();
    answers_stay_in_order();
}
