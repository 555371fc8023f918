//! A Mark that waits is of a block that points to what its line writes.
ghost use Rattle.std.specs.Prelude.{◌≡◌, ◌<◌, ℕ, List, Option, Some, slice_get};
ghost use Rattle.hs_answered.specs.Standing.{IsFolded};
ghost use Rattle.hs_awaiting.specs.declared.wait.Wait.TheVariants as wait;
ghost use Rattle.hs_awaiting.specs.declared.waiting.Waiting.{Waiting};
ghost use Rattle.hs_core_words.specs.Looking.{front_of, group_of, operation_of, shape_of};
ghost use Rattle.hs_core_words.specs.Opening.{Taken, new_core};
ghost use Rattle.hs_core_words.specs.Operating.{begin_line, go_on_with, propose_entry, resume};
ghost use Rattle.hs_core_words.specs.Seeing.{pointers_for};
ghost use Rattle.hs_core_words.specs.State.{Core};
ghost use Rattle.hs_core_words.specs.Views.{begin_view};
ghost use Rattle.hs_deeds.specs.Points.{MarksPoint};
ghost use Rattle.hs_effects.specs.Logged.{IsNewLine, IsOrderly};
ghost use Rattle.hs_entry.specs.declared.entry.Entry.{Entry};
ghost use Rattle.hs_entry.specs.declared.entry.Entry.TheVariants as kind;
ghost use Rattle.hs_fold.specs.Runs.Facts.{Catalogue as Folded};
ghost use Rattle.hs_fold.specs.Shards.Parted.{NamesUpTo};
ghost use Rattle.hs_limits.specs.declared.address.Address.{Address};
ghost use Rattle.hs_limits.specs.declared.limits.Limits.{Limits};
ghost use Rattle.hs_limits.specs.declared.shape.Shape.{Shape};
ghost use Rattle.hs_model.specs.declared.op.Op.{Op};
ghost use Rattle.hs_ops.specs.Operations.{bytes_step};
ghost use Rattle.hs_replica.specs.Group.{committed};
ghost use Rattle.hs_standing.specs.Changes.{IsBeside, IsIdle, told_at_once};

/// Of each Mark that waits the block that is there by the entry of its number points to what the write
/// of its line writes, and each single change keeps it so, whatever bytes are told: the core compares
/// the pointers of a write with those that its catalogue has. None waits as a core is made (`opened`). An
/// entry that takes effect keeps it where each Mark names a block that took effect before (`effect`).
pub fn each_change_keeps_pointers()
    ensures opened { (shape : Shape) (limits : Limits) (found : Taken) (moment : ℕ) →
        MarksPoint (new_core shape limits found moment) }
    ensures views { (shard : ℕ) (core : Core) → MarksPoint core →
        MarksPoint (begin_view shard core) }
    ensures beside { (before after : Core) → IsBeside before after → MarksPoint before →
        MarksPoint after }
    ensures own { (core : Core) → MarksPoint core → (shard line epoch : ℕ) →
        MarksPoint (propose_entry shard (kind.Enter line epoch) core) }
    ensures line { (name : List ℕ → Address) (core : Core) → IsOrderly name core
        → MarksPoint core → (line : ℕ) (o : Op) → IsNewLine name core line o →
        MarksPoint (begin_line line o core) }
    ensures goes { (name : List ℕ → Address) (core : Core) → IsOrderly name core
        → MarksPoint core → (line : ℕ)
        → ((w : Waiting) → operation_of line core ≡ Some w → IsIdle w.wait) →
        MarksPoint (resume line core) }
    ensures told { (name : List ℕ → Address) (core : Core) → IsOrderly name core
        → MarksPoint core → (line number : ℕ) (bytes : Option (List ℕ)) (w : Waiting)
        → operation_of line core ≡ Some w → w.wait ≡ wait.Bytes number →
        MarksPoint (go_on_with
        (λ v o. bytes_step v bytes (pointers_for w.shard w.operation.op core) o) line core) }
    ensures effect { (name : List ℕ → Address) (cs : List Folded) (core : Core)
        → IsFolded core cs → IsOrderly name core → MarksPoint core
        → (shard number : ℕ) (entry : Entry) → shard < (shape_of core).shards
        → committed (group_of shard core) ≡ Some (number, entry)
        → ((place : ℕ) (e : Entry) → slice_get (group_of shard core).waiting place ≡ Some e
        → NamesUpTo (front_of shard core) e) →
        MarksPoint (told_at_once shard entry core) }
{}
