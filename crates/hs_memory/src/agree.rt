//! Catalogues in memory and folds agree.
ghost use Rattle.std.specs.Prelude.{◌≡◌, ℕ, List};
ghost use Rattle.hs_entry.specs.declared.entry.Entry.{Entry};
ghost use Rattle.hs_fold.specs.Runs.Catalogue.{catalogue_of};
ghost use Rattle.hs_fold.specs.Runs.Catalogue.{apply as fold_entry};
ghost use Rattle.hs_fold.specs.Runs.Facts.{Catalogue as Folded};
ghost use Rattle.hs_fold.specs.Runs.Own.{IsOwn};
ghost use Rattle.hs_fold.specs.Shards.Setting.{Numbered};
ghost use Rattle.hs_limits.specs.declared.address.Address.{Address};
ghost use Rattle.hs_limits.specs.declared.shape.Shape.{Shape};
ghost use Rattle.hs_memory.specs.Forget.{apply_all, forget, named, reading};
ghost use Rattle.hs_shard.specs.Apply.{apply};
ghost use Rattle.hs_shard.specs.Facts.{empty_catalogue};

/// An entry does to the catalogue in memory what it does to the fold, but for the blocks' bytes,
/// where the fold is of its shard, in order, and retains no key twice, as that of every list. So
/// after any entries a catalogue in memory is the fold of them without the blocks' bytes.
pub fn catalogues_in_memory_are_folds()
    ensures entry { (name : List ℕ → Address) (shape : Shape) (shard : ℕ) (c : Folded)
        (number : ℕ) (entry : Entry) → IsOwn shape.shards shard c →
        (apply number entry (named name entry) (forget shape shard c)).catalogue
        ≡ forget shape shard (fold_entry (reading name shape shard) c (number, entry)) }
    ensures list { (name : List ℕ → Address) (shape : Shape) (shard : ℕ) (entries : Numbered) →
        apply_all name (empty_catalogue shape shard) entries
        ≡ forget shape shard (catalogue_of (reading name shape shard) entries) }
{}
