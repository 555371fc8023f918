//! Which blocks of a core are zero blocks, in the words of the plain store.
ghost use Rattle.std.specs.Prelude.{ℕ, List};
ghost use Rattle.hs_core_words.specs.State.{Core};
ghost use Rattle.hs_effects.specs.Lawful.{IsLawful};
ghost use Rattle.hs_fold.specs.Lawful.{Deed};
ghost use Rattle.hs_fold.specs.Runs.Facts.{Catalogue as Folded};
ghost use Rattle.hs_fold.specs.Runs.History.{FitAll, follow_all, no_entries};
ghost use Rattle.hs_fold.specs.Shards.Setting.{Setting};
ghost use Rattle.hs_joint.specs.Along.{KeepFewRecords};
ghost use Rattle.hs_limits.specs.declared.address.Address.{Address};
ghost use Rattle.hs_limits.specs.Shape.{IsShape};
ghost use Rattle.hs_measure.specs.Zeros.{AreZerosRight, ZerosRight};

/// Behind a lawful history of entries (`behind`), and so of a core whose catalogues are those of one
/// (`of_core`): a present block that the anchors of its shard's epoch reach, in the plain store that
/// the catalogues are, was given in that epoch or is no zero block; and where a Got that may come next
/// completes the last round of a run, each block of its shard that was born before the epoch and that
/// these anchors don't reach is a zero block, and was last given before it.
pub fn zero_blocks_are_right()
    ensures behind { (set : Setting) (history : List Deed)
        → IsShape set.shape → FitAll set (no_entries set) history
        → KeepFewRecords set (no_entries set) history →
        AreZerosRight set (follow_all set (no_entries set) history) }
    ensures of_core { (name : List ℕ → Address) (core : Core) (cs : List Folded)
        → IsLawful name core cs → ZerosRight name core }
{}
