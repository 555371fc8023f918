//! A Mark that waits is of the block that its line writes.
ghost use Rattle.std.specs.Prelude.{◌≡◌, ◌<◌, ℕ, List, [], Option, Some, slice_get};
ghost use Rattle.hs_standing.specs.Changes.{IsBeside, IsIdle, told_at_once};
ghost use Rattle.hs_answered.specs.Standing.{IsFolded};
ghost use Rattle.hs_awaiting.specs.declared.wait.Wait.TheVariants as wait;
ghost use Rattle.hs_awaiting.specs.declared.waiting.Waiting.{Waiting};
ghost use Rattle.hs_core_words.specs.Looking.{front_of, group_of, operation_of, shape_of};
ghost use Rattle.hs_core_words.specs.Opening.{Taken, new_core};
ghost use Rattle.hs_core_words.specs.Operating.{begin_line, go_on_with, propose_entry, resume};
ghost use Rattle.hs_core_words.specs.Seeing.{pointers_for};
ghost use Rattle.hs_core_words.specs.State.{Core};
ghost use Rattle.hs_core_words.specs.Views.{begin_view};
ghost use Rattle.hs_desk.specs.declared.what.What.TheVariants as what;
ghost use Rattle.hs_effects.specs.Answered.{IsWritten};
ghost use Rattle.hs_effects.specs.Logged.{IsNewLine, IsOrderly};
ghost use Rattle.hs_effects.specs.Taking.{done_by, folds_behind};
ghost use Rattle.hs_entry.specs.declared.entry.Entry.{Entry};
ghost use Rattle.hs_entry.specs.declared.entry.Entry.TheVariants as kind;
ghost use Rattle.hs_fold.specs.Runs.Facts.{Catalogue as Folded};
ghost use Rattle.hs_fold.specs.Shards.Parted.{NamesUpTo};
ghost use Rattle.hs_standing.specs.Held.{AreAddressed, AreItsBytes, AreWritten};
ghost use Rattle.hs_limits.specs.declared.address.Address.{Address};
ghost use Rattle.hs_limits.specs.declared.limits.Limits.{Limits};
ghost use Rattle.hs_limits.specs.declared.shape.Shape.{Shape};
ghost use Rattle.hs_model.specs.declared.op.Op.{Op};
ghost use Rattle.hs_ops.specs.Operations.{bytes_step};
ghost use Rattle.hs_replica.specs.Group.{committed};

/// A Mark that gives its block: the block that is there at its address is the one that the write of
/// its line writes.
pub fn a_mark_gives_its_writes_block()
    ensures { (name : List ℕ → Address) (cs : List Folded) (core : Core)
        → IsFolded core cs → IsOrderly name core → AreWritten core cs
        → (shard number line least block : ℕ) (a : Address) → shard < (shape_of core).shards
        → let entry = kind.Mark line least block a in
        committed (group_of shard core) ≡ Some (number, entry)
        → (done_by shard entry core).effect.what ≡ what.Marked → IsWritten cs core line a }
{}

/// Each Mark that waits is of the block that its line writes, as long as this is there, and each
/// change keeps it so, and a view that begins (`views`). None waits as a core opens (`opened`), and no
/// step proposes one but that of a write which is told bytes, where they are its block's (`told`). An entry that takes
/// effect keeps it, where each Mark names a block that took effect before (`effect`).
pub fn each_change_keeps_marks()
    ensures opened { (cs : List Folded) (shape : Shape) (limits : Limits) (found : Taken)
        (moment : ℕ) → AreWritten (new_core shape limits found moment) cs }
    ensures views { (shard : ℕ) (core : Core) (cs : List Folded) → AreWritten core cs →
        AreWritten (begin_view shard core) cs }
    ensures beside { (cs : List Folded) (before after : Core) → IsBeside before after
        → AreWritten before cs → AreWritten after cs }
    ensures own { (cs : List Folded) (core : Core) → AreWritten core cs → (shard line epoch : ℕ) →
        AreWritten (propose_entry shard (kind.Enter line epoch) core) cs }
    ensures line { (name : List ℕ → Address) (cs : List Folded) (core : Core)
        → IsOrderly name core → AreWritten core cs → (line : ℕ) (o : Op)
        → IsNewLine name core line o → AreWritten (begin_line line o core) cs }
    ensures goes { (name : List ℕ → Address) (cs : List Folded) (core : Core)
        → IsOrderly name core → AreWritten core cs → (line : ℕ)
        → ((w : Waiting) → operation_of line core ≡ Some w → IsIdle w.wait) →
        AreWritten (resume line core) cs }
    ensures told { (name : List ℕ → Address) (cs : List Folded) (core : Core)
        → IsFolded core cs → IsOrderly name core → AreAddressed core → AreWritten core cs
        → (line number : ℕ) (bytes : Option (List ℕ)) (w : Waiting)
        → operation_of line core ≡ Some w → w.wait ≡ wait.Bytes number
        → AreItsBytes cs core bytes w →
        AreWritten (go_on_with
        (λ v o. bytes_step v bytes (pointers_for w.shard w.operation.op core) o) line core) cs }
    ensures effect { (name : List ℕ → Address) (cs : List Folded) (core : Core)
        → IsFolded core cs → IsOrderly name core → AreWritten core cs
        → (shard number : ℕ) (entry : Entry) → shard < (shape_of core).shards
        → committed (group_of shard core) ≡ Some (number, entry)
        → ((place : ℕ) (e : Entry) → slice_get (group_of shard core).waiting place ≡ Some e
        → NamesUpTo (front_of shard core) e) →
        AreWritten (told_at_once shard entry core) (folds_behind name cs shard entry core) }
{}
