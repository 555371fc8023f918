//! Addresses of 32 bytes.
ghost use Rattle.std.specs.Prelude.{◌≡◌, ℕ, List, Option, Some, slice_get};
ghost use Rattle.std.specs.List.{AllByRecursion};
ghost use Rattle.hs_standing.specs.Changes.{IsBeside, told_at_once};
ghost use Rattle.hs_awaiting.specs.declared.waiting.Waiting.{Waiting};
ghost use Rattle.hs_core_words.specs.Looking.{group_of};
ghost use Rattle.hs_core_words.specs.Opening.{Taken, new_core};
ghost use Rattle.hs_core_words.specs.Operating.{begin_line, go_on_with, propose_entry, resume};
ghost use Rattle.hs_core_words.specs.Seeing.{pointers_for};
ghost use Rattle.hs_core_words.specs.State.{Core};
ghost use Rattle.hs_core_words.specs.Views.{begin_view};
ghost use Rattle.hs_effects.specs.Answered.{HoldAddresses};
ghost use Rattle.hs_effects.specs.Logged.{IsNewLine, IsOrderly};
ghost use Rattle.hs_entry.specs.declared.entry.Entry.{Entry};
ghost use Rattle.hs_entry.specs.declared.entry.Entry.TheVariants as kind;
ghost use Rattle.hs_standing.specs.Held.{AreAddressed, GivesAddresses, Has32Bytes, KeepsAddresses};
ghost use Rattle.hs_limits.specs.declared.address.Address.{Address};
ghost use Rattle.hs_limits.specs.declared.limits.Limits.{Limits};
ghost use Rattle.hs_limits.specs.declared.shape.Shape.{Shape};
ghost use Rattle.hs_model.specs.declared.op.Op.{Op};
ghost use Rattle.hs_ops.specs.Operations.{bytes_step};
ghost use Rattle.hs_replica.specs.Group.{committed};

/// Where the core keeps addresses of 32 bytes, each handle stands for one; and a Root and a Mark
/// that wait have one, where names have.
pub fn handles_stand_for_addresses()
    ensures held { (core : Core) → AreAddressed core → HoldAddresses core.sessions }
    ensures roots { (name : List ℕ → Address) (core : Core) → IsOrderly name core
        → AreAddressed core → (shard place line held : ℕ) (a : Address) (key : List ℕ)
        → slice_get (group_of shard core).waiting place ≡ Some (kind.Root line held a key) →
        Has32Bytes a }
    ensures marks { (name : List ℕ → Address) → GivesAddresses name → (core : Core)
        → IsOrderly name core → (shard place line least block : ℕ) (a : Address)
        → slice_get (group_of shard core).waiting place ≡ Some (kind.Mark line least block a) →
        Has32Bytes a }
{}

/// Where names have 32 bytes, each change keeps it so. A core opens so, where its catalogues are so
/// (`opened`); a view that begins keeps it, an entry that is proposed, a client's line, an operation
/// that goes on or is told any bytes, an entry that takes effect, and what is beside.
pub fn each_change_keeps_addresses()
    ensures opened { (shape : Shape) (limits : Limits) (found : Taken) (moment : ℕ)
        → AllByRecursion KeepsAddresses found.catalogues →
        AreAddressed (new_core shape limits found moment) }
    ensures views { (shard : ℕ) (core : Core) → AreAddressed core →
        AreAddressed (begin_view shard core) }
    ensures beside { (before after : Core) → IsBeside before after → AreAddressed before →
        AreAddressed after }
    ensures proposed { (shard : ℕ) (entry : Entry) (core : Core) → AreAddressed core →
        AreAddressed (propose_entry shard entry core) }
    ensures line { (name : List ℕ → Address) → GivesAddresses name → (core : Core)
        → AreAddressed core → (line : ℕ) (o : Op) → IsNewLine name core line o →
        AreAddressed (begin_line line o core) }
    ensures goes { (name : List ℕ → Address) → GivesAddresses name → (core : Core)
        → IsOrderly name core → AreAddressed core → (line : ℕ) → AreAddressed (resume line core) }
    ensures told { (name : List ℕ → Address) → GivesAddresses name → (core : Core)
        → IsOrderly name core → AreAddressed core
        → (line : ℕ) (bytes : Option (List ℕ)) (w : Waiting) →
        AreAddressed (go_on_with
        (λ v o. bytes_step v bytes (pointers_for w.shard w.operation.op core) o) line core) }
    ensures effect { (name : List ℕ → Address) → GivesAddresses name → (core : Core)
        → IsOrderly name core → AreAddressed core → (shard number : ℕ) (entry : Entry)
        → committed (group_of shard core) ≡ Some (number, entry) →
        AreAddressed (told_at_once shard entry core) }
{}
