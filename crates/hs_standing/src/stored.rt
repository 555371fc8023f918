//! What is present was stored by an entry that took effect.
ghost use Rattle.std.specs.Prelude.{◌≡◌, ◌<◌, ◌≤◌, ℕ, List, Some, length, slice_index};
ghost use Rattle.hs_standing.specs.Changes.{IsBeside, told_at_once};
ghost use Rattle.hs_core_words.specs.Looking.{group_of, shape_of};
ghost use Rattle.hs_core_words.specs.Opening.{Taken, new_core};
ghost use Rattle.hs_core_words.specs.Operating.{begin_line, go_on_with, propose_entry};
ghost use Rattle.hs_core_words.specs.State.{Core};
ghost use Rattle.hs_effects.specs.Lawful.{IsLawful};
ghost use Rattle.hs_effects.specs.Taking.{folds_behind};
ghost use Rattle.hs_entry.specs.declared.entry.Entry.{Entry};
ghost use Rattle.hs_fold.specs.Catalogue.{Shard};
ghost use Rattle.hs_fold.specs.Prefix.{IsNumbered};
ghost use Rattle.hs_fold.specs.Runs.Catalogue.{catalogue_of};
ghost use Rattle.hs_fold.specs.Runs.Facts.{Catalogue as Folded, Facts, facts_at};
ghost use Rattle.hs_fold.specs.Runs.Fits.{catalogue_at};
ghost use Rattle.hs_fold.specs.Shards.Setting.{Numbered};
ghost use Rattle.hs_limits.specs.declared.address.Address.{Address};
ghost use Rattle.hs_limits.specs.declared.limits.Limits.{Limits};
ghost use Rattle.hs_limits.specs.declared.shape.Shape.{Shape};
ghost use Rattle.hs_model.specs.declared.op.Op.{Op};
ghost use Rattle.hs_ops.specs.Operations.{Operation};
ghost use Rattle.hs_ops.specs.Views.{OpView};
ghost use Rattle.hs_ops.specs.declared.step.OpStep.{OpStep};
ghost use Rattle.hs_replica.specs.Group.{committed};
ghost use Rattle.hs_standing.specs.Rests.{AreStored};

/// What a numbered list amounts to has blocks of its entries alone (`listed`). So where a core is made
/// with what such lists amount to, each present block was stored by an entry that took effect
/// (`opened`), and so it is behind each change of which an event is made: behind an entry that takes
/// effect, with what is told of it at once; where an operation goes on, or is begun; where an entry
/// is proposed; and beside all of that.
pub fn what_is_present_was_stored()
    ensures listed { (at : Shard) (list : Numbered) → IsNumbered list → (a : Address) (facts : Facts)
        → facts_at (catalogue_of at list) a ≡ Some facts → facts.present.number ≤ length list }
    ensures opened { (cs : List Folded) (shape : Shape) (limits : Limits) (found : Taken) (moment : ℕ)
        → length cs ≡ shape.shards
        → ((shard : ℕ) → shard < shape.shards → (a : Address) (facts : Facts)
        → facts_at (catalogue_at cs shard) a ≡ Some facts
        → facts.present.number ≤ slice_index found.lengths shard) →
        AreStored (new_core shape limits found moment) cs }
    ensures beside { (cs : List Folded) (before after : Core)
        → AreStored before cs → IsBeside before after → AreStored after cs }
    ensures effect { (name : List ℕ → Address) (cs : List Folded) (core : Core) (shard number : ℕ)
        (entry : Entry)
        → IsLawful name core cs → AreStored core cs → shard < (shape_of core).shards
        → committed (group_of shard core) ≡ Some (number, entry) →
        AreStored (told_at_once shard entry core) (folds_behind name cs shard entry core) }
    ensures goes { (cs : List Folded) (core : Core) (next : OpView → Operation → OpStep) (line : ℕ)
        → AreStored core cs → AreStored (go_on_with next line core) cs }
    ensures line { (cs : List Folded) (core : Core) (line : ℕ) (o : Op)
        → AreStored core cs → AreStored (begin_line line o core) cs }
    ensures proposed { (cs : List Folded) (core : Core) (shard : ℕ) (entry : Entry)
        → AreStored core cs → AreStored (propose_entry shard entry core) cs }
{}
