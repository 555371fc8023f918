//! What opening finds.
ghost use Rattle.std.specs.Prelude.{◌≡◌, ◌<◌, [], ℕ, List, length};
ghost use Rattle.hs_fold.specs.Prefix.{IsNumbered};
ghost use Rattle.hs_fold.specs.Runs.Opened.{catalogues, store_of};
ghost use Rattle.hs_fold.specs.Shards.Images.{Stop};
ghost use Rattle.hs_journal.specs.declared.entry.JournalEntry.{JournalEntry};
ghost use Rattle.hs_sound.specs.Stay.{AreSoundAlong};
ghost use Rattle.hs_standing.specs.Left.{MayBeLeft, TookEffect};
ghost use Rattle.hs_standing.specs.Lists.{Lists, whole_from};
ghost use Rattle.hs_standing.specs.Start.{IsAwaited, Start};

/// Where all of sound lists took effect, and the run begins at the store at which they open, nothing
/// was answered and nothing waits: so it stands at opening.
pub fn opened_lists_stand()
    ensures took { (start : Start) (lists : Lists)
        → ((shard : ℕ) → shard < start.set.shape.shards
        → lists.front shard ≡ length (lists.whole shard))
        → AreSoundAlong start.set (whole_from lists 0 start.set.shape.shards)
        → start.entry
        ≡ store_of (catalogues start.set 0 (whole_from lists 0 start.set.shape.shards)) →
        TookEffect start [] lists }
    ensures left { (start : Start) (stop : Stop) (journal : List JournalEntry) (lists : Lists)
        (shard : ℕ) → ((shard : ℕ) → shard < start.set.shape.shards
        → lists.front shard ≡ length (lists.whole shard))
        → AreSoundAlong start.set (whole_from lists 0 start.set.shape.shards)
        → shard < start.set.shape.shards → IsNumbered (lists.whole shard) →
        MayBeLeft start.set (IsAwaited start stop journal) lists shard }
{}
