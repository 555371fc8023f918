//! What waits rests on what is there, behind every change.
ghost use Rattle.std.specs.Prelude.{◌≡◌, ◌+◌, ◌<◌, ◌≤◌, ℕ, List, Option, Some, length, true};
ghost use Rattle.hs_standing.specs.Changes.{IsBeside, told_at_once};
ghost use Rattle.hs_awaiting.specs.declared.waiting.Waiting.{Waiting};
ghost use Rattle.hs_core_words.specs.Changing.{change_pool};
ghost use Rattle.hs_core_words.specs.Entering.{is_enter_due};
ghost use Rattle.hs_core_words.specs.Looking.{catalogue_of, group_of, operation_of, shape_of};
ghost use Rattle.hs_core_words.specs.Opening.{Taken, new_core};
ghost use Rattle.hs_core_words.specs.Operating.{begin_line, go_on_with, propose_entry, resume};
ghost use Rattle.hs_core_words.specs.Seeing.{pointers_for};
ghost use Rattle.hs_core_words.specs.State.{Core};
ghost use Rattle.hs_core_words.specs.Views.{begin_view};
ghost use Rattle.hs_effects.specs.Taking.{folds_behind, taken};
ghost use Rattle.hs_entry.specs.declared.entry.Entry.{Entry};
ghost use Rattle.hs_entry.specs.declared.entry.Entry.TheVariants.{Enter, Got};
ghost use Rattle.hs_fold.specs.Runs.Facts.{Catalogue as Folded};
ghost use Rattle.hs_fold.specs.Shards.Sound.{most_records};
ghost use Rattle.hs_limits.specs.declared.address.Address.{Address};
ghost use Rattle.hs_limits.specs.declared.delta.Delta.{Delta};
ghost use Rattle.hs_limits.specs.declared.limits.Limits.{Limits};
ghost use Rattle.hs_limits.specs.declared.shape.Shape.{Shape};
ghost use Rattle.hs_model.specs.declared.op.Op.{Op};
ghost use Rattle.hs_ops.specs.Operations.{bytes_step};
ghost use Rattle.hs_post.specs.Pool.{without};
ghost use Rattle.hs_replica.specs.Group.{committed};
ghost use Rattle.hs_standing.specs.Rests.{AreResting, GotsWait, IsGrounded};

/// Nothing waits as a core is made (`opened`), and what waits rests on what is there behind each
/// change of which an event is made: behind an entry that takes effect, with what is told of it at
/// once; where an operation goes on, is told the bytes of its block, or is begun; where a shard
/// proposes a due Enter, or a Got of a round that has come; where a view begins; and beside all of
/// that. Of Gots it is a premise: each is what its sender keeps.
pub fn what_waits_rests_on_what_is_there()
    ensures opened { (cs : List Folded) (shape : Shape) (limits : Limits) (found : Taken) (moment : ℕ)
        → AreResting (new_core shape limits found moment) cs }
    ensures viewed { (cs : List Folded) (core : Core) (shard : ℕ)
        → AreResting core cs → shard < length cs → AreResting (begin_view shard core) cs }
    ensures beside { (cs : List Folded) (before after : Core)
        → AreResting before cs → IsBeside before after → AreResting after cs }
    ensures effect { (name : List ℕ → Address) (cs : List Folded) (core : Core) (shard number : ℕ)
        (entry : Entry)
        → IsGrounded name core cs → shard < (shape_of core).shards
        → committed (group_of shard core) ≡ Some (number, entry)
        → ((g : ℕ) → length (catalogue_of g (taken shard entry core)).roots ≤ most_records)
        → GotsWait (told_at_once shard entry core) (folds_behind name cs shard entry core) →
        AreResting (told_at_once shard entry core) (folds_behind name cs shard entry core) }
    ensures goes { (name : List ℕ → Address) (cs : List Folded) (core : Core) (line : ℕ)
        → IsGrounded name core cs → AreResting (resume line core) cs }
    ensures told { (name : List ℕ → Address) (cs : List Folded) (core : Core) (line : ℕ)
        (bytes : Option (List ℕ)) (w : Waiting)
        → IsGrounded name core cs → operation_of line core ≡ Some w →
        AreResting (go_on_with
        (λ v o. bytes_step v bytes (pointers_for w.shard w.operation.op core) o) line core) cs }
    ensures line { (name : List ℕ → Address) (cs : List Folded) (core : Core) (line : ℕ) (o : Op)
        → IsGrounded name core cs → AreResting (begin_line line o core) cs }
    ensures due { (name : List ℕ → Address) (cs : List Folded) (core : Core) (shard : ℕ)
        → IsGrounded name core cs → shard < (shape_of core).shards
        → is_enter_due shard core ≡ true →
        AreResting (propose_entry shard (Enter 0 ((catalogue_of shard core).epoch + 1)) core) cs }
    ensures round { (name : List ℕ → Address) (cs : List Folded) (core : Core)
        (number from to epoch round total : ℕ) (deltas : List Delta)
        → IsGrounded name core cs → to < (shape_of core).shards
        → GotsWait (propose_entry to (Got from epoch round total deltas)
        (change_pool (without number) core)) cs →
        AreResting (propose_entry to (Got from epoch round total deltas)
        (change_pool (without number) core)) cs }
{}
