//! The run over all that waits.
ghost use Rattle.std.specs.Prelude.{ℕ, List};
ghost use Rattle.hs_limits.specs.Shape.{IsShape};
ghost use Rattle.hs_laws.specs.Valid.{IsValid};
ghost use Rattle.hs_fold.specs.Lawful.{Deed};
ghost use Rattle.hs_fold.specs.Runs.History.{FitAll, follow_all, no_entries};
ghost use Rattle.hs_fold.specs.Runs.Opened.{store_of};
ghost use Rattle.hs_fold.specs.Shards.Setting.{Setting};
ghost use Rattle.hs_joint.specs.Along.{EachDoesItsPart, KeepFewRecords};
ghost use Rattle.hs_waiting.specs.Waits.{AllWait};

/// Behind a lawful history all that waits may come, in any order: each entry fits where it comes, behind
/// whatever else of it came before, sweeps among them; so the whole is a lawful history. Each does to the
/// plain store what it says, and leaves it valid. A Mark waits only for a block that took effect: `front`
/// tells up to which number that is so of each shard.
pub fn what_waits_may_come_still()
    ensures fits { (set : Setting) (history deeds : List Deed) (front : ℕ → ℕ)
        → IsShape set.shape → FitAll set (no_entries set) history
        → KeepFewRecords set (no_entries set) history
        → AllWait set front (follow_all set (no_entries set) history) deeds
        → KeepFewRecords set (follow_all set (no_entries set) history) deeds →
        FitAll set (follow_all set (no_entries set) history) deeds }
    ensures parts { (set : Setting) (history deeds : List Deed) (front : ℕ → ℕ)
        → IsShape set.shape → FitAll set (no_entries set) history
        → KeepFewRecords set (no_entries set) history
        → AllWait set front (follow_all set (no_entries set) history) deeds
        → KeepFewRecords set (follow_all set (no_entries set) history) deeds →
        EachDoesItsPart set (follow_all set (no_entries set) history) deeds }
    ensures valid { (set : Setting) (history deeds : List Deed) (front : ℕ → ℕ)
        → IsShape set.shape → FitAll set (no_entries set) history
        → KeepFewRecords set (no_entries set) history
        → AllWait set front (follow_all set (no_entries set) history) deeds
        → KeepFewRecords set (follow_all set (no_entries set) history) deeds →
        IsValid (store_of (follow_all set (follow_all set (no_entries set) history) deeds)) }
{}
