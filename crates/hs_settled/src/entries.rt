//! What each entry of a run stands for.
ghost use Rattle.std.specs.Prelude.{◌≤◌, All, Option, length};
ghost use Rattle.hs_promise.specs.Answers.{IsEntry};
ghost use Rattle.hs_promise.specs.Machine.{WentAs};
ghost use Rattle.hs_promise.specs.Run.{Ran, Script};
ghost use Rattle.hs_promise.specs.Story.{Story};

/// Each entry of the journal of a run stands for a line that was begun, for what a shard did by
/// itself, or for the store, and so does each that found the journal full; there are no more in it
/// than its limit.
pub fn each_entry_stands_for_its_cause()
    ensures journal { (S : Script) (r : Ran) (how : Option Story) → WentAs S r how →
        All (IsEntry S r.line) r.journal }
    ensures refused { (S : Script) (r : Ran) (how : Option Story) → WentAs S r how →
        All (IsEntry S r.line) r.refused }
    ensures fits { (S : Script) (r : Ran) (how : Option Story) → WentAs S r how →
        length r.journal ≤ S.set.limits.ops }
{}
