//! What the single changes of a core tell is deeds.
ghost use Rattle.std.specs.Prelude.{◌≡◌, ℕ, List, Option, Some};
ghost use Rattle.hs_answered.specs.Asked.{IsAsked};
ghost use Rattle.hs_answered.specs.Standing.{IsFolded, store_with};
ghost use Rattle.hs_answered.specs.Telling.{Judging};
ghost use Rattle.hs_awaiting.specs.declared.waiting.Waiting.{Waiting};
ghost use Rattle.hs_core_words.specs.Looking.{group_of, operation_of};
ghost use Rattle.hs_core_words.specs.Operating.{begin_line, go_on_with, resume};
ghost use Rattle.hs_core_words.specs.Seeing.{pointers_for};
ghost use Rattle.hs_core_words.specs.State.{Core};
ghost use Rattle.hs_deeds.specs.On.{AreUnanswered, DeedsOn, Whatever};
ghost use Rattle.hs_deeds.specs.Points.{MarksPoint};
ghost use Rattle.hs_effects.specs.Answered.{HoldAddresses};
ghost use Rattle.hs_effects.specs.Lawful.{IsLawful, MayFollow};
ghost use Rattle.hs_effects.specs.Logged.{IsOrderly};
ghost use Rattle.hs_effects.specs.Taking.{folds_behind, next_deed, setting_of};
ghost use Rattle.hs_entry.specs.declared.entry.Entry.{Entry};
ghost use Rattle.hs_fold.specs.Runs.Facts.{Catalogue as Folded};
ghost use Rattle.hs_limits.specs.declared.address.Address.{Address};
ghost use Rattle.hs_limits.specs.declared.limits.Limits.{Limits};
ghost use Rattle.hs_model.specs.declared.op.Op.{Op};
ghost use Rattle.hs_ops.specs.Operations.{bytes_step};
ghost use Rattle.hs_replica.specs.Group.{committed};
ghost use Rattle.hs_standing.specs.Changes.{told_at_once};
ghost use Rattle.hs_standing.specs.Commands.{AreCommanded};
ghost use Rattle.hs_standing.specs.Epochs.{HaveEpochs};

use hs_answered::{
    a_read_is_the_judges, a_step_that_answers_is_the_judges, a_write_is_the_judges,
    an_answer_is_the_judges, views_show_the_store,
};
use hs_effects::{
    a_delete_is_answered_at_its_effect, a_drop_is_answered_at_its_effect,
    a_got_is_silent_or_a_sweep, a_new_block_is_answered_at_its_effect,
    a_present_block_is_answered_at_its_effect, a_root_is_answered_at_its_effect,
    an_enter_by_itself_is_told,
};

/// What a client's line tells is a deed at the store of the core, without data, or nothing, where no
/// operation that waits is answered before (`line`); so is what an operation tells that goes on (`goes`),
/// and one that is told bytes, whichever these are (`told`). What an entry tells that takes effect is deeds:
/// that of its operation, a refusal too, of the shard that enters or sweeps, and that a run is done, directly
/// behind the sweep that ends it (`effect`). Each leaves the store that the deeds leave.
pub fn each_change_tells_deeds()
    ensures line { (name : List ℕ → Address) (limits : Limits) (cs : List Folded) (core : Core)
        (line : ℕ) (o : Op)
        → core.limits ≡ limits → IsFolded core cs → IsOrderly name core
        → IsAsked (store_with cs core.sessions) o →
        DeedsOn (AreUnanswered core) limits cs cs core (begin_line line o core) }
    ensures goes { (by : Judging) (cs : List Folded) (core : Core) (line : ℕ)
        → core.limits ≡ by.limits → IsFolded core cs → IsOrderly by.name core
        → AreCommanded by core →
        DeedsOn Whatever by.limits cs cs core (resume line core) }
    ensures told { (by : Judging) (cs : List Folded) (core : Core) (line : ℕ)
        (bytes : Option (List ℕ)) (w : Waiting)
        → core.limits ≡ by.limits → IsFolded core cs → IsOrderly by.name core
        → AreCommanded by core → operation_of line core ≡ Some w →
        DeedsOn Whatever by.limits cs cs core (go_on_with
        (λ v o. bytes_step v bytes (pointers_for w.shard w.operation.op core) o) line core) }
    ensures effect { (by : Judging) (cs : List Folded) (core : Core) (shard number : ℕ)
        (entry : Entry)
        → core.limits ≡ by.limits → IsLawful by.name core cs → IsOrderly by.name core
        → HoldAddresses core.sessions → AreCommanded by core → HaveEpochs core
        → MarksPoint core → committed (group_of shard core) ≡ Some (number, entry)
        → MayFollow (setting_of by.name core) cs (next_deed shard entry core) →
        DeedsOn Whatever by.limits cs (folds_behind by.name cs shard entry core) core
        (told_at_once shard entry core) }
{
    a_step_that_answers_is_the_judges();
    an_answer_is_the_judges();
    a_read_is_the_judges();
    a_write_is_the_judges();
    views_show_the_store();
    a_new_block_is_answered_at_its_effect();
    a_present_block_is_answered_at_its_effect();
    a_root_is_answered_at_its_effect();
    a_drop_is_answered_at_its_effect();
    a_delete_is_answered_at_its_effect();
    an_enter_by_itself_is_told();
    a_got_is_silent_or_a_sweep();
}
