//! An entry comes to wait.
ghost use Rattle.std.specs.Prelude.{◌<◌, ℕ, List};
ghost use Rattle.hs_entry.specs.declared.entry.Entry.{Entry};
ghost use Rattle.hs_fold.specs.Shards.Images.{Stop};
ghost use Rattle.hs_journal.specs.declared.entry.JournalEntry.{JournalEntry};
ghost use Rattle.hs_standing.specs.Effect.{AreStanding, MayBeAdded, with_entry};
ghost use Rattle.hs_standing.specs.Lists.{Lists};
ghost use Rattle.hs_standing.specs.Start.{IsAwaited, Start};

/// Where an entry that may wait comes to the end of a shard's list, nothing more takes effect, and all
/// stands as before.
pub fn an_entry_comes_to_wait()
    ensures stands { (start : Start) (stop : Stop) (journal : List JournalEntry) (lists : Lists)
        (shard : ℕ) (entry : Entry)
        → AreStanding start (IsAwaited start stop journal) journal lists
        → shard < start.set.shape.shards
        → MayBeAdded start.set (IsAwaited start stop journal) lists shard entry →
        AreStanding start (IsAwaited start stop journal) journal (with_entry lists shard entry) }
{}
