//! What suffices.
ghost use Rattle.std.specs.Prelude.{◌≢◌, ◌+◌, ◌<◌, ◌≤◌, ℕ, AllPairs, length, take};
ghost use Rattle.hs_fold.specs.Prefix.{IsNumbered};
ghost use Rattle.hs_fold.specs.Runs.Catalogue.{catalogue_of};
ghost use Rattle.hs_fold.specs.Shards.Setting.{Setting, shard_in};
ghost use Rattle.hs_fold.specs.Shards.Sound.{most_records};
ghost use Rattle.hs_standing.specs.Left.{EachLineOnce, HasFewRecords};
ghost use Rattle.hs_standing.specs.Lists.{Lists, waiting};
ghost use Rattle.hs_standing.specs.Start.{Start};
ghost use Rattle.hs_standing.specs.Suffices.{all_asked, roots_in};

/// Where the root records of what took effect, together with the Root entries that wait, are no more
/// than a shard takes, no front of its list has more. Where the lines of all that waits differ, no line
/// changes the store twice.
pub fn easily_told_facts_suffice()
    ensures records { (set : Setting) (lists : Lists) (shard : ℕ)
        → length (catalogue_of (shard_in set shard)
        (take (lists.front shard) (lists.whole shard))).roots + roots_in (waiting lists shard)
        ≤ most_records → HasFewRecords set lists shard }
    ensures lines { (start : Start) (lists : Lists)
        → ((shard : ℕ) → shard < start.set.shape.shards
        → IsNumbered (lists.whole shard) × (lists.front shard ≤ length (lists.whole shard)))
        → AllPairs (λ one other. one ≢ other) (all_asked lists 0 start.set.shape.shards) →
        EachLineOnce start lists }
{}
