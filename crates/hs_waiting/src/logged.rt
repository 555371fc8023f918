//! What is logged of rounds.
ghost use Rattle.std.specs.Prelude.{◌<◌, ℕ, List};
ghost use Rattle.hs_limits.specs.Shape.{IsShape};
ghost use Rattle.hs_fold.specs.Lawful.{Deed};
ghost use Rattle.hs_fold.specs.Runs.History.{FitAll, follow_all, no_entries};
ghost use Rattle.hs_fold.specs.Runs.Sound.{AreSent};
ghost use Rattle.hs_fold.specs.Shards.Setting.{Setting};
ghost use Rattle.hs_joint.specs.Along.{KeepFewRecords};

/// Behind a lawful history each Got that waits in a catalogue, or is of the open round, is what its
/// sender has sent last or last but one. So it is part of what makes lists sound, with runs in progress.
pub fn logged_gots_are_what_their_senders_keep()
    ensures sent { (set : Setting) (history : List Deed) (shard : ℕ)
        → IsShape set.shape → FitAll set (no_entries set) history
        → KeepFewRecords set (no_entries set) history → shard < set.shape.shards →
        AreSent (follow_all set (no_entries set) history) shard }
{}
