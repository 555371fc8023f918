//! A Drop that takes effect answers its operation as the plain store does.
ghost use Rattle.std.specs.Prelude.{◌≡◌, ℕ, IsSome, List, Some};
ghost use Rattle.hs_core_words.specs.Looking.{catalogue_of, group_of};
ghost use Rattle.hs_core_words.specs.State.{Core};
ghost use Rattle.hs_effects.specs.Answered.{IsAnsweredBy, heard};
ghost use Rattle.hs_effects.specs.Lawful.{IsLawful, MayFollow};
ghost use Rattle.hs_effects.specs.Logged.{IsOrderly};
ghost use Rattle.hs_effects.specs.Taking.{folds_behind, next_deed, setting_of};
ghost use Rattle.hs_entry.specs.declared.entry.Entry.TheVariants as kind;
ghost use Rattle.hs_fold.specs.Runs.Facts.{Catalogue as Folded};
ghost use Rattle.hs_limits.specs.declared.address.Address.{Address};
ghost use Rattle.hs_model.specs.declared.op.Op.TheVariants as op;
ghost use Rattle.hs_replica.specs.Group.{committed};
ghost use Rattle.hs_roots.specs.Roots.{retained_of};

use hs_answered::views_show_the_store;

/// A Drop that is committed while its key is retained: its operation is judged at that moment, told
/// the judge's reply with its deed, and the store is the one that the judge leaves.
pub fn a_drop_is_answered_at_its_effect()
    ensures { (name : List ℕ → Address) (cs : List Folded) (core : Core) (shard number line : ℕ)
        (key : List ℕ)
        → IsLawful name core cs → IsOrderly name core
        → let entry = kind.Drop line key in
        committed (group_of shard core) ≡ Some (number, entry)
        → MayFollow (setting_of name core) cs (next_deed shard entry core)
        → IsSome (retained_of key (catalogue_of shard core).roots) →
        IsAnsweredBy cs (folds_behind name cs shard entry core) core (heard shard entry core) line
        (op.Drop key) }
{
    views_show_the_store();
}
