//! The catalogues stay folds of a lawful history.
ghost use Rattle.std.specs.Prelude.{ℕ, ◌<◌, List};
ghost use Rattle.hs_answered.specs.Standing.{IsFolded};
ghost use Rattle.hs_core_words.specs.Effects.{commit, take_effect};
ghost use Rattle.hs_core_words.specs.Looking.{shape_of};
ghost use Rattle.hs_core_words.specs.State.{Core};
ghost use Rattle.hs_effects.specs.Lawful.{IsLawful, MayComeAll, MayFollow};
ghost use Rattle.hs_effects.specs.Lawful.{committed_count, folds_after};
ghost use Rattle.hs_effects.specs.Logged.{IsOrderly};
ghost use Rattle.hs_effects.specs.Taking.{IsNamed, folds_behind, next_deed, setting_of, taken};
ghost use Rattle.hs_entry.specs.declared.entry.Entry.{Entry};
ghost use Rattle.hs_fold.specs.Runs.Facts.{Catalogue as Folded};
ghost use Rattle.hs_joint.specs.Along.{DoesItsPart};
ghost use Rattle.hs_limits.specs.declared.address.Address.{Address};

/// Where the catalogues of a core are folds, and an entry of a shard takes effect, they are the
/// folds behind that entry: before anything goes on by it (`taken`), and behind all that does
/// (`folded`). Where they are of a lawful history, and the entry may come behind it, they are of
/// one again (`lawful`), and the entry does to the plain store what it says, which is allowed
/// there, and leaves it valid (`part`).
pub fn an_entry_keeps_a_lawful_store()
    ensures taken { (name : List ℕ → Address) (cs : List Folded) (core : Core) (shard : ℕ)
        (entry : Entry)
        → IsFolded core cs → shard < (shape_of core).shards → IsNamed name entry core →
        IsFolded (taken shard entry core) (folds_behind name cs shard entry core) }
    ensures folded { (name : List ℕ → Address) (cs : List Folded) (core : Core) (shard : ℕ)
        (entry : Entry)
        → IsFolded core cs → shard < (shape_of core).shards → IsNamed name entry core →
        IsFolded (take_effect shard entry core) (folds_behind name cs shard entry core) }
    ensures lawful { (name : List ℕ → Address) (cs : List Folded) (core : Core) (shard : ℕ)
        (entry : Entry)
        → IsLawful name core cs → IsNamed name entry core
        → MayFollow (setting_of name core) cs (next_deed shard entry core) →
        IsLawful name (take_effect shard entry core) (folds_behind name cs shard entry core) }
    ensures part { (name : List ℕ → Address) (cs : List Folded) (core : Core) (shard : ℕ)
        (entry : Entry)
        → IsLawful name core cs
        → MayFollow (setting_of name core) cs (next_deed shard entry core) →
        DoesItsPart (setting_of name core) cs (next_deed shard entry core) }
{}

/// So do all entries of a shard that are committed, one after another, where operations and entries
/// are in order and each may come.
pub fn all_that_is_committed_keeps_a_lawful_store()
    ensures { (name : List ℕ → Address) (cs : List Folded) (core : Core) (shard : ℕ)
        → IsOrderly name core → IsLawful name core cs
        → MayComeAll (committed_count shard core) name shard core cs →
        IsLawful name (commit shard core)
        (folds_after (committed_count shard core) name shard core cs) }
{}
