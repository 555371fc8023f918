//! Rounds lose nothing.
ghost use Rattle.std.specs.Prelude.{ℕ, List};
ghost use Rattle.hs_limits.specs.Shape.{IsShape};
ghost use Rattle.hs_fold.specs.Lawful.{Deed};
ghost use Rattle.hs_fold.specs.Runs.History.{FitAll, no_entries};
ghost use Rattle.hs_fold.specs.Shards.Setting.{Setting};
ghost use Rattle.hs_joint.specs.Along.{KeepFewRecords};
ghost use Rattle.hs_joint.specs.Numbers.{EachLosesNothing};

/// Along a lawful history all that a round says is told and counted: told addresses are present and
/// distinct, so that no shard's part of a round is cut at the most blocks that a shard takes; no count
/// comes to 2^32, and none would fall below 0.
pub fn rounds_lose_nothing()
    ensures each { (set : Setting) (history : List Deed)
        → IsShape set.shape → FitAll set (no_entries set) history
        → KeepFewRecords set (no_entries set) history →
        EachLosesNothing set (no_entries set) history }
{}
