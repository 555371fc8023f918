//! What a shard does by itself is told as the plain store does it.
ghost use Rattle.std.specs.Prelude.{◌≡◌, ℕ, List, [], Some, None};
ghost use Rattle.hs_core_words.specs.Effects.{take_effect};
ghost use Rattle.hs_core_words.specs.Looking.{operation_of};
ghost use Rattle.hs_core_words.specs.State.{Core};
ghost use Rattle.hs_effects.specs.Lawful.{IsLawful, MayFollow};
ghost use Rattle.hs_effects.specs.Taking.{folds_behind, next_deed, setting_of};
ghost use Rattle.hs_effects.specs.Telling.{HasHappened, HasSwept, IsSilent};
ghost use Rattle.hs_entry.specs.declared.entry.Entry.TheVariants as kind;
ghost use Rattle.hs_fold.specs.Runs.Facts.{Catalogue as Folded};
ghost use Rattle.hs_fold.specs.Shards.Happening.{enters as entering, sweeps as sweeping};
ghost use Rattle.hs_joint.specs.Along.{happening_by};
ghost use Rattle.hs_limits.specs.declared.address.Address.{Address};
ghost use Rattle.hs_model.specs.Run.{enters};
ghost use Rattle.hs_limits.specs.declared.delta.Delta.{Delta};

use hs_answered::views_show_the_store;

/// A Got that takes effect and ends the last round of a run is a sweep: the shard tells it with the
/// reply of the plain store, `done` stands directly behind it where every shard has swept the
/// epoch, and the store is the one that the sweep leaves. Any other Got tells nothing, and leaves
/// the store.
pub fn a_got_is_silent_or_a_sweep()
    ensures sweeps { (name : List ℕ → Address) (cs : List Folded) (core : Core)
        (shard sender epoch round total : ℕ) (deltas : List Delta)
        → IsLawful name core cs
        → let entry = kind.Got sender epoch round total deltas in
        MayFollow (setting_of name core) cs (next_deed shard entry core)
        → happening_by (setting_of name core) cs (next_deed shard entry core)
        ≡ Some (sweeping shard) →
        HasSwept cs (folds_behind name cs shard entry core) core
        (take_effect shard entry core) shard }
    ensures silent { (name : List ℕ → Address) (cs : List Folded) (core : Core)
        (shard sender epoch round total : ℕ) (deltas : List Delta)
        → IsLawful name core cs
        → let entry = kind.Got sender epoch round total deltas in
        MayFollow (setting_of name core) cs (next_deed shard entry core)
        → happening_by (setting_of name core) cs (next_deed shard entry core) ≡ None →
        IsSilent cs (folds_behind name cs shard entry core) core (take_effect shard entry core) }
{
    views_show_the_store();
}

/// An Enter that takes effect and that no operation asked for is told by its shard with the reply
/// of the plain store, and the store is the one that the enter leaves; one that changes nothing is
/// not told.
pub fn an_enter_by_itself_is_told()
    ensures enters { (name : List ℕ → Address) (cs : List Folded) (core : Core)
        (shard line epoch : ℕ)
        → IsLawful name core cs → operation_of line core ≡ None
        → let entry = kind.Enter line epoch in
        MayFollow (setting_of name core) cs (next_deed shard entry core)
        → happening_by (setting_of name core) cs (next_deed shard entry core)
        ≡ Some (entering shard) →
        HasHappened cs (folds_behind name cs shard entry core) core
        (take_effect shard entry core) shard (enters shard) [] }
    ensures silent { (name : List ℕ → Address) (cs : List Folded) (core : Core)
        (shard line epoch : ℕ)
        → IsLawful name core cs → operation_of line core ≡ None
        → let entry = kind.Enter line epoch in
        MayFollow (setting_of name core) cs (next_deed shard entry core)
        → happening_by (setting_of name core) cs (next_deed shard entry core) ≡ None →
        IsSilent cs (folds_behind name cs shard entry core) core (take_effect shard entry core) }
{
    views_show_the_store();
}
