//! An accepted deletion answers its operation as the plain store does.
ghost use Rattle.std.specs.Prelude.{◌≡◌, ℕ, ◌<◌, ◌≤◌, List, Some};
ghost use Rattle.hs_core_words.specs.Looking.{catalogue_of, group_of};
ghost use Rattle.hs_core_words.specs.State.{Core};
ghost use Rattle.hs_desk.specs.declared.what.What.TheVariants as what;
ghost use Rattle.hs_effects.specs.Answered.{IsAnsweredBy, heard};
ghost use Rattle.hs_effects.specs.Lawful.{IsLawful, MayFollow};
ghost use Rattle.hs_effects.specs.Logged.{IsOrderly};
ghost use Rattle.hs_effects.specs.Taking.{done_by, folds_behind, next_deed, setting_of};
ghost use Rattle.hs_entry.specs.declared.entry.Entry.TheVariants as kind;
ghost use Rattle.hs_fold.specs.Runs.Facts.{Catalogue as Folded};
ghost use Rattle.hs_limits.specs.declared.address.Address.{Address};
ghost use Rattle.hs_model.specs.declared.op.Op.TheVariants as op;
ghost use Rattle.hs_replica.specs.Group.{committed};

use hs_answered::views_show_the_store;

/// The Enter of a Delete that takes effect, where its shard's epoch is below the limit: the operation
/// is told the run of that epoch, and the store is the one that the judge leaves.
pub fn a_delete_is_answered_at_its_effect()
    ensures { (name : List ℕ → Address) (cs : List Folded) (core : Core)
        (shard number line epoch : ℕ)
        → 1 ≤ line → IsLawful name core cs → IsOrderly name core
        → let entry = kind.Enter line epoch in
        committed (group_of shard core) ≡ Some (number, entry)
        → MayFollow (setting_of name core) cs (next_deed shard entry core)
        → (done_by shard entry core).effect.what ≡ what.Entered epoch
        → (catalogue_of shard core).epoch < core.limits.epochs →
        IsAnsweredBy cs (folds_behind name cs shard entry core) core (heard shard entry core) line
        op.Delete }
{
    views_show_the_store();
}
