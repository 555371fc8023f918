//! A run keeps all.
ghost use Rattle.hs_clauses.specs.Shown.{IsToldRun, RunsSoundly};
ghost use Rattle.hs_laws.specs.Valid.{IsValid};
ghost use Rattle.hs_model.specs.Store.{Store};
ghost use Rattle.hs_promise.specs.Answers.{Answers};
ghost use Rattle.hs_promise.specs.Entry.{IsSoundAtEntry, entry_store};
ghost use Rattle.hs_promise.specs.Kept.{KeepsAlong};
ghost use Rattle.hs_promise.specs.Run.{Ran, Script};
ghost use Rattle.hs_promise.specs.Story.{Story};

use crate::answered::a_run_is_answered;
use hs_laws::{legal_runs_keep_all, what_is_kept_is_present};

/// From a valid store on, behind each front of a journal that is answered as the plain store does all
/// is present that is kept for a client (`along`). So it is of a run on disks that are sound at entry, with
/// any number of copies of each shard (`run`), and of one that begins over sound lists, and whose reports
/// tell the bytes of their blocks (`soundly`).
pub fn a_run_keeps()
    ensures along { (S : Script) (entry : Store) (r : Ran)
        → IsValid entry → Answers S entry r.journal → KeepsAlong S entry r }
    ensures run { (S : Script) (r : Ran)
        → IsToldRun S r → IsSoundAtEntry S r → KeepsAlong S (entry_store S r) r }
    ensures soundly { (S : Script) (r : Ran) (story : Story)
        → RunsSoundly S r story → KeepsAlong S (entry_store S r) r }
{
    a_run_is_answered();
    legal_runs_keep_all();
    what_is_kept_is_present();
}
