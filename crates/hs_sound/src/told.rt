//! What kept rounds tell.
ghost use Rattle.std.specs.Prelude.{List, All};
ghost use Rattle.hs_fold.specs.Lawful.{Deed};
ghost use Rattle.hs_fold.specs.Runs.History.{follow_all, no_entries};
ghost use Rattle.hs_fold.specs.Shards.Setting.{Setting};
ghost use Rattle.hs_sound.specs.Told.{KeptTellEachItsOwn};

/// Behind any history, lawful or not, each round that a shard keeps as sent has a part for every shard,
/// and tells none of another one's blocks.
pub fn kept_rounds_tell_each_shard_its_own()
    ensures own { (set : Setting) (history : List Deed) →
        All (KeptTellEachItsOwn set.shape.shards) (follow_all set (no_entries set) history) }
{}
