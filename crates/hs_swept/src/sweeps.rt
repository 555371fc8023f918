//! Sweeps that a journal tells of.
ghost use Rattle.std.specs.Prelude.{List};
ghost use Rattle.hs_answered.specs.Telling.{Judging, Tells};
ghost use Rattle.hs_journal.specs.declared.entry.JournalEntry.{JournalEntry};
ghost use Rattle.hs_laws.specs.Distinct.{HasDistinctAddresses};
ghost use Rattle.hs_model.specs.Store.{Store};
ghost use Rattle.hs_swept.specs.Swept.{ShardsSweep, SweepsExactly};

use hs_laws::{addresses_stay_distinct, sweep_is_exact};

/// In a journal that tells a legal run of the plain store with its answers, from a store whose
/// addresses are distinct on, each sweep that a shard tells of removes exactly what is unreachable
/// at its place, and tells the number.
pub fn each_sweep_is_exact()
    ensures { (by : Judging) (start : Store) (entries : List JournalEntry) (after : Store)
        → HasDistinctAddresses start → ShardsSweep entries → Tells by start entries after →
        SweepsExactly by start entries }
{
    sweep_is_exact();
    addresses_stay_distinct();
}
