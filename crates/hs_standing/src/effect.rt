//! An entry takes effect.
ghost use Rattle.std.specs.Prelude.{◌≡◌, ◌<◌, ℕ, List};
ghost use Rattle.hs_entry.specs.declared.entry.Entry.{Entry};
ghost use Rattle.hs_fold.specs.Runs.Opened.{store_of};
ghost use Rattle.hs_fold.specs.Shards.Happening.{happen_by};
ghost use Rattle.hs_joint.specs.Along.{happening_by};
ghost use Rattle.hs_journal.specs.declared.entry.JournalEntry.{JournalEntry};
ghost use Rattle.hs_model.specs.Run.{IsLegal};
ghost use Rattle.hs_model.specs.Store.{reborn};
ghost use Rattle.hs_standing.specs.Effect.{AreStanding, AreStillDue, IsFirstWaiting, deed_of, one_more};
ghost use Rattle.hs_fold.specs.Shards.Images.{Stop};
ghost use Rattle.hs_standing.specs.Left.{AllWait, TookEffect};
ghost use Rattle.hs_standing.specs.Lists.{Lists, settled_catalogues};
ghost use Rattle.hs_standing.specs.Start.{IsAwaited, Start, events_in, store_after};

/// Where the first entry that waits of a shard takes effect, the lists stand at the store behind what
/// was answered and what happens by it. So where the journal goes on with just that, what took effect
/// is what it tells again; and all that waits of any shard waits still, if each Got would be taken.
pub fn an_entry_takes_effect()
    ensures stands { (start : Start) (stop : Stop) (journal : List JournalEntry) (lists : Lists)
        (shard : ℕ) (e : ℕ × Entry)
        → AreStanding start (IsAwaited start stop journal) journal lists
        → IsFirstWaiting start.set lists shard e →
        store_of (settled_catalogues start.set (one_more lists shard))
        ≡ happen_by (reborn (store_after start journal))
        (happening_by start.set (settled_catalogues start.set lists) (deed_of shard e)) }
    ensures took { (start : Start) (stop : Stop) (journal further : List JournalEntry) (lists : Lists)
        (shard : ℕ) (e : ℕ × Entry)
        → AreStanding start (IsAwaited start stop journal) journal lists
        → IsFirstWaiting start.set lists shard e
        → IsLegal start.set.limits start.entry (events_in start further)
        → reborn (store_after start further) ≡ happen_by (reborn (store_after start journal))
        (happening_by start.set (settled_catalogues start.set lists) (deed_of shard e)) →
        TookEffect start further (one_more lists shard) }
    ensures waits { (start : Start) (stop : Stop) (journal : List JournalEntry) (lists : Lists)
        (shard other : ℕ) (e : ℕ × Entry)
        → AreStanding start (IsAwaited start stop journal) journal lists
        → IsFirstWaiting start.set lists shard e → other < start.set.shape.shards
        → AreStillDue start.set (one_more lists shard) other →
        AllWait start.set (one_more lists shard) other }
{}
