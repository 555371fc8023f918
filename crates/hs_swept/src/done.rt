//! Where a journal tells that a run is done.
ghost use Rattle.std.specs.Prelude.{ℕ, IsTrue, List, [], ◌∷◌, ◌++◌};
ghost use Rattle.hs_answered.specs.Telling.{Judging, events_in};
ghost use Rattle.hs_journal.specs.declared.entry.JournalEntry.{JournalEntry};
ghost use Rattle.hs_laws.specs.Distinct.{HasDistinctAddresses};
ghost use Rattle.hs_laws.specs.Valid.{IsValid};
ghost use Rattle.hs_model.specs.Inner.{may_sweep};
ghost use Rattle.hs_model.specs.Run.{run};
ghost use Rattle.hs_model.specs.Store.{Store};
ghost use Rattle.hs_swept.specs.Swept.{AreSwept, IsOther, sweep_entries};

use hs_laws::sweep_is_exact;

/// What a shard tells that sweeps where it may, with `done` directly behind it where every shard has
/// swept the epoch then, keeps the rule of sweeps and of `done`, in a valid store (`sweep`). So does
/// nothing (`nothing`), and any entry that tells neither of a sweep nor of the end of a run
/// (`other`). A journal that keeps it, behind another that does, keeps it (`joined`).
pub fn done_stands_behind_its_sweep()
    ensures sweep { (by : Judging) (s : Store) (shard moment : ℕ)
        → IsValid s → HasDistinctAddresses s → IsTrue (may_sweep s shard) →
        AreSwept by s (sweep_entries by s shard moment) }
    ensures nothing { (by : Judging) (s : Store) → AreSwept by s [] }
    ensures other { (by : Judging) (s : Store) (entry : JournalEntry)
        → IsOther entry → AreSwept by s (entry ∷ []) }
    ensures joined { (by : Judging) (s : Store) (front back : List JournalEntry)
        → AreSwept by s front → AreSwept by (run by.limits s (events_in by s front)) back →
        AreSwept by s (front ++ back) }
{
    sweep_is_exact();
}
