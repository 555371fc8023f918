//! Along a lawful history.
ghost use Rattle.std.specs.Prelude.{ℕ, List};
ghost use Rattle.hs_limits.specs.Shape.{IsShape};
ghost use Rattle.hs_fold.specs.Lawful.{Deed};
ghost use Rattle.hs_fold.specs.Runs.History.{FitAll, no_entries};
ghost use Rattle.hs_fold.specs.Shards.Setting.{Setting};
ghost use Rattle.hs_joint.specs.Along.{EachDoesItsPart, KeepFewRecords};

/// Along a lawful history each entry does to the plain store what it says: an Enter that changes its
/// catalogue enters, the Got that completes the last round of a run sweeps, and so removes exactly what
/// is unreachable, any other Got does nothing, and a client's entry does what its operation does. Each
/// may come there, and the store stays valid.
pub fn histories_do_their_part()
    ensures each { (set : Setting) (history : List Deed)
        → IsShape set.shape → FitAll set (no_entries set) history
        → KeepFewRecords set (no_entries set) history →
        EachDoesItsPart set (no_entries set) history }
{}
