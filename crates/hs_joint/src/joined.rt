//! Folds and the machine.
ghost use Rattle.std.specs.Prelude.{ℕ, ◌<◌, List};
ghost use Rattle.hs_limits.specs.Shape.{IsShape};
ghost use Rattle.hs_deletion.specs.Machine.{Machine};
ghost use Rattle.hs_fold.specs.Lawful.{Deed};
ghost use Rattle.hs_fold.specs.Runs.History.{FitAll, follow_all, no_entries};
ghost use Rattle.hs_fold.specs.Shards.Setting.{Setting};
ghost use Rattle.hs_joint.specs.Along.{KeepFewRecords};
ghost use Rattle.hs_joint.specs.Joined.{AreJoined};

/// What a lawful history makes of the catalogues of all shards follows a deletion machine that a lawful
/// history of effects makes, and each shard keeps as sent the last two rounds that the machine's shard
/// has sent, with what they told each shard. So all that is proved of the machine holds of the folds.
pub fn folds_follow_the_machine()
    ensures joined { (set : Setting) (history : List Deed) (some : 0 < set.shape.shards)
        → IsShape set.shape → FitAll set (no_entries set) history
        → KeepFewRecords set (no_entries set) history →
        (m : Machine) × AreJoined set some (follow_all set (no_entries set) history) m }
{}
