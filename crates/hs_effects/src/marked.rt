//! A Mark that gives its block answers its operation as the plain store does.
ghost use Rattle.std.specs.Prelude.{◌≡◌, ℕ, List, Some};
ghost use Rattle.hs_core_words.specs.Looking.{group_of};
ghost use Rattle.hs_core_words.specs.State.{Core};
ghost use Rattle.hs_desk.specs.declared.what.What.TheVariants as what;
ghost use Rattle.hs_effects.specs.Answered.{HasAnswer, IsWritten, heard};
ghost use Rattle.hs_effects.specs.Lawful.{IsLawful, MayFollow};
ghost use Rattle.hs_effects.specs.Logged.{IsOrderly};
ghost use Rattle.hs_effects.specs.Taking.{done_by, folds_behind, next_deed, setting_of};
ghost use Rattle.hs_entry.specs.declared.entry.Entry.TheVariants as kind;
ghost use Rattle.hs_fold.specs.Runs.Facts.{Catalogue as Folded};
ghost use Rattle.hs_limits.specs.declared.address.Address.{Address};
ghost use Rattle.hs_replica.specs.Group.{committed};

use hs_answered::views_show_the_store;
use hs_shown::an_effect_is_the_stores;

/// A Mark that gives its block, where the block that is there is the write's: the write of its line
/// is told that its block was there, with the judge's handle, epoch and deed, and the store is the
/// one that the judge leaves.
pub fn a_present_block_is_answered_at_its_effect()
    ensures { (name : List ℕ → Address) (cs : List Folded) (core : Core)
        (shard number line least block : ℕ) (a : Address)
        → IsLawful name core cs → IsOrderly name core → IsWritten cs core line a
        → let entry = kind.Mark line least block a in
        committed (group_of shard core) ≡ Some (number, entry)
        → MayFollow (setting_of name core) cs (next_deed shard entry core)
        → (done_by shard entry core).effect.what ≡ what.Marked →
        HasAnswer cs (folds_behind name cs shard entry core) core (heard shard entry core) line }
{
    views_show_the_store();
    an_effect_is_the_stores();
}
