//! Runs of the core, from the opening of a shard on.
ghost use Rattle.std.specs.Prelude.{◌≡◌, ℕ, ◌<◌, Bool, List, None, Option, true};
ghost use Rattle.hs_entry.specs.declared.entry.Entry.{Entry};
ghost use Rattle.hs_entry.specs.declared.entry.Entry.TheVariants.{View};
ghost use Rattle.hs_limits.specs.declared.limits.PeerStatus.{PeerStatus};
ghost use Rattle.hs_limits.specs.declared.shape.Shape.{Shape};
ghost use Rattle.hs_members.specs.Members.{Members, become};
ghost use Rattle.hs_rejoin.specs.Rejoin.{Rejoin};
ghost use Rattle.hs_replica.specs.Group.{IsHome};
ghost use Rattle.hs_copies.specs.CoreCopies.{CoreCopies, opens_good};
ghost use Rattle.hs_copies.specs.CoreRuns.{CopiesTo, CoreCall, MayCall, MayCallAll, after_call, after_calls, opened_core, opened_machine};
ghost use Rattle.hs_copies.specs.Lists.{Item};
ghost use Rattle.hs_copies.specs.Machine.{Copies};
ghost use Rattle.hs_copies.specs.Standing.{Continues, IsAlike, IsCopyingStep, IsOpening, StandsFor};

/// A shard as the core opens it stands for one as the machine does, for any number of copies. Each call
/// that the core may make is events of the machine; so after any calls since the opening its copies stand
/// for copies of the machine, and the laws of those hold of them. While a copying step runs its entry may
/// be on the disk already. What doesn't concern the shard changes nothing: another shard's views and peers,
/// and which lead a joining peer copies from.
pub fn runs_of_the_core_are_runs_of_the_machine()
    ensures call { (line : Entry → Option ℕ) (call : CoreCall) (c : CoreCopies) (s : Copies Entry) → StandsFor line c s
        → MayCall line call c → Continues line (after_call call c) s }
    ensures copying { (line : Entry → Option ℕ) (c : CoreCopies) (s : Copies Entry) (peer number leads : ℕ)
        → StandsFor line c s → MayCall line (CopiesTo peer number leads) c → IsCopyingStep line c s peer }
    ensures alike { (line : Entry → Option ℕ) (c : CoreCopies) (s : Copies Entry) (m : Members) (rejoins : ℕ → Rejoin)
        → StandsFor line c s → IsAlike c m rejoins → StandsFor line (record c { members = m; rejoins = rejoins }) s }
    ensures elsewhere { (line : Entry → Option ℕ) (c : CoreCopies) (s : Copies Entry) (peer : ℕ) (new : PeerStatus)
        → StandsFor line c s → 0 < c.group.shape.copies → (IsHome c.group peer → ⊥)
        → StandsFor line (record c { members = become peer new c.members }) s }
    ensures run { (line : Entry → Option ℕ) (shape : Shape) (shard : ℕ) (log : List (Item Entry)) (good : List Bool)
        (m : Members) (rejoins : ℕ → Rejoin) (calls : List CoreCall) → ((view : ℕ) → line (View view) ≡ None)
        → IsOpening shape shard log good m → MayCallAll line calls (opened_core shape shard log good m rejoins)
        → (leads : ℕ) × (opens_good shape shard good leads ≡ true)
        × Continues line (after_calls calls (opened_core shape shard log good m rejoins))
        (opened_machine shape shard log good m leads) }
{}
