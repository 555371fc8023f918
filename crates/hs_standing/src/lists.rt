//! Lists that a stop may leave.
ghost use Rattle.std.specs.Prelude.{◌≡◌, ◌≢◌, ◌<◌, ℕ, List, All, AllPairs, length};
ghost use Rattle.hs_fold.specs.Runs.Opened.{catalogues, store_of};
ghost use Rattle.hs_fold.specs.Shards.Happening.{happen_all, happenings};
ghost use Rattle.hs_fold.specs.Shards.Images.{Stop};
ghost use Rattle.hs_fold.specs.Shards.Pending.{AreOneRun, changing_lines};
ghost use Rattle.hs_fold.specs.Shards.Setting.{Numbered};
ghost use Rattle.hs_journal.specs.declared.entry.JournalEntry.{JournalEntry};
ghost use Rattle.hs_limits.specs.Shape.{IsShape};
ghost use Rattle.hs_model.specs.Store.{reborn};
ghost use Rattle.hs_sound.specs.Stay.{AreSoundAlong};
ghost use Rattle.hs_standing.specs.Left.{AreFronts, EachLineOnce, MayBeLeft, TookEffect};
ghost use Rattle.hs_standing.specs.Lists.{Lists};
ghost use Rattle.hs_fold.specs.Shards.Outstanding.{MayPend, pending};
ghost use Rattle.hs_standing.specs.Start.{IsAwaited, Start, events_in, store_after};

/// Of each shard a front of its list that has all that took effect: together they stand at the store
/// behind what was answered and then what waits in them, all of it one legal run; they are sound; what
/// waits in them is of lines that are awaited, and of no line twice.
pub fn fronts_reopen()
    ensures stands { (start : Start) (stop : Stop) (journal : List JournalEntry) (lists : Lists)
        (some : List Numbered) → IsShape start.set.shape → TookEffect start journal lists
        → ((shard : ℕ) → shard < start.set.shape.shards
        → MayBeLeft start.set (IsAwaited start stop journal) lists shard)
        → length some ≡ start.set.shape.shards → AreFronts lists 0 some →
        store_of (catalogues start.set 0 some) ≡ reborn (happen_all (store_after start journal)
        (happenings (pending start.set lists.front 0 some))) }
    ensures legal { (start : Start) (stop : Stop) (journal : List JournalEntry) (lists : Lists)
        (some : List Numbered) → IsShape start.set.shape → TookEffect start journal lists
        → ((shard : ℕ) → shard < start.set.shape.shards
        → MayBeLeft start.set (IsAwaited start stop journal) lists shard)
        → length some ≡ start.set.shape.shards → AreFronts lists 0 some →
        AreOneRun start.set.limits start.entry (events_in start journal)
        (happenings (pending start.set lists.front 0 some)) }
    ensures sound { (start : Start) (stop : Stop) (journal : List JournalEntry) (lists : Lists)
        (some : List Numbered) → IsShape start.set.shape → TookEffect start journal lists
        → ((shard : ℕ) → shard < start.set.shape.shards
        → MayBeLeft start.set (IsAwaited start stop journal) lists shard)
        → length some ≡ start.set.shape.shards → AreFronts lists 0 some →
        AreSoundAlong start.set some }
    ensures awaited { (start : Start) (stop : Stop) (journal : List JournalEntry) (lists : Lists)
        (some : List Numbered) → IsShape start.set.shape → TookEffect start journal lists
        → ((shard : ℕ) → shard < start.set.shape.shards
        → MayBeLeft start.set (IsAwaited start stop journal) lists shard)
        → length some ≡ start.set.shape.shards → AreFronts lists 0 some →
        All (λ e. MayPend (IsAwaited start stop journal) e.0) (pending start.set lists.front 0 some) }
    ensures once { (start : Start) (stop : Stop) (journal : List JournalEntry) (lists : Lists)
        (some : List Numbered) → IsShape start.set.shape → TookEffect start journal lists
        → ((shard : ℕ) → shard < start.set.shape.shards
        → MayBeLeft start.set (IsAwaited start stop journal) lists shard)
        → length some ≡ start.set.shape.shards → AreFronts lists 0 some → EachLineOnce start lists →
        AllPairs (λ one other. one ≢ other) (changing_lines (pending start.set lists.front 0 some)) }
{}
