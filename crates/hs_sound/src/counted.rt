//! The counters behind a lawful history.
ghost use Rattle.std.specs.Prelude.{List, All};
ghost use Rattle.hs_limits.specs.Shape.{IsShape};
ghost use Rattle.hs_fold.specs.Lawful.{Deed};
ghost use Rattle.hs_fold.specs.Runs.Counts.{AreCounted};
ghost use Rattle.hs_fold.specs.Runs.History.{FitAll, follow_all, no_entries};
ghost use Rattle.hs_fold.specs.Shards.Setting.{Setting};
ghost use Rattle.hs_joint.specs.Along.{KeepFewRecords};

/// Behind a lawful history each counter is how often its address is named by what counts in all
/// shards, less what kept rounds still raise it by, and with what they still lower it by: of the
/// rounds that shards keep as sent these are those that its shard has not applied.
pub fn histories_are_counted()
    ensures counted { (set : Setting) (history : List Deed)
        → IsShape set.shape → FitAll set (no_entries set) history
        → KeepFewRecords set (no_entries set) history →
        let cs = follow_all set (no_entries set) history in
        All (AreCounted cs) cs }
{}
