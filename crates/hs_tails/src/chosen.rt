//! Lists that are chosen.
ghost use Rattle.std.specs.Prelude.{◌≡◌, ◌≢◌, ℕ, List, All, AllPairs};
ghost use Rattle.hs_core_words.specs.State.{Core};
ghost use Rattle.hs_fold.specs.Runs.Opened.{catalogues, store_of};
ghost use Rattle.hs_fold.specs.Shards.Happening.{happen_all, happenings};
ghost use Rattle.hs_fold.specs.Shards.Images.{Stop};
ghost use Rattle.hs_fold.specs.Shards.Outstanding.{MayPend, pending};
ghost use Rattle.hs_fold.specs.Shards.Pending.{AreOneRun, changing_lines};
ghost use Rattle.hs_fold.specs.Shards.Setting.{Numbered};
ghost use Rattle.hs_journal.specs.declared.entry.JournalEntry.{JournalEntry};
ghost use Rattle.hs_model.specs.Store.{reborn};
ghost use Rattle.hs_sound.specs.Stay.{AreSoundAlong};
ghost use Rattle.hs_standing.specs.Lists.{Lists};
ghost use Rattle.hs_standing.specs.Start.{IsAwaited, Start, events_in, store_after};
ghost use Rattle.hs_tails.specs.Chosen.{AreChosen, Disks, TailsStand, lists_chosen};

use hs_standing::fronts_reopen;

/// Where tails stand, take of each shard any list that may be chosen, whichever peer has it: together
/// they stand at the store behind what was answered and then what is pending in them, all of it one
/// legal run; they are sound; what is pending in them is of lines that are awaited, and of no line twice.
pub fn chosen_lists_reopen()
    ensures stands { (start : Start) (stop : Stop) (journal : List JournalEntry) (disks : Disks)
        (lists : Lists) (core : Core) (chosen : ℕ → Numbered)
        → TailsStand start stop journal disks lists core
        → AreChosen start.set.shape disks lists chosen →
        store_of (catalogues start.set 0 (lists_chosen start lists chosen))
        ≡ reborn (happen_all (store_after start journal)
        (happenings (pending start.set lists.front 0 (lists_chosen start lists chosen)))) }
    ensures legal { (start : Start) (stop : Stop) (journal : List JournalEntry) (disks : Disks)
        (lists : Lists) (core : Core) (chosen : ℕ → Numbered)
        → TailsStand start stop journal disks lists core
        → AreChosen start.set.shape disks lists chosen →
        AreOneRun start.set.limits start.entry (events_in start journal)
        (happenings (pending start.set lists.front 0 (lists_chosen start lists chosen))) }
    ensures sound { (start : Start) (stop : Stop) (journal : List JournalEntry) (disks : Disks)
        (lists : Lists) (core : Core) (chosen : ℕ → Numbered)
        → TailsStand start stop journal disks lists core
        → AreChosen start.set.shape disks lists chosen →
        AreSoundAlong start.set (lists_chosen start lists chosen) }
    ensures awaited { (start : Start) (stop : Stop) (journal : List JournalEntry) (disks : Disks)
        (lists : Lists) (core : Core) (chosen : ℕ → Numbered)
        → TailsStand start stop journal disks lists core
        → AreChosen start.set.shape disks lists chosen →
        All (λ e. MayPend (IsAwaited start stop journal) e.0)
        (pending start.set lists.front 0 (lists_chosen start lists chosen)) }
    ensures once { (start : Start) (stop : Stop) (journal : List JournalEntry) (disks : Disks)
        (lists : Lists) (core : Core) (chosen : ℕ → Numbered)
        → TailsStand start stop journal disks lists core
        → AreChosen start.set.shape disks lists chosen →
        AllPairs (λ one other. one ≢ other)
        (changing_lines (pending start.set lists.front 0 (lists_chosen start lists chosen))) }
{
    fronts_reopen();
}
