//! A sweep removes what it should, and nothing else.
ghost use Rattle.hs_deletion.specs.Machine.{Layout, Machine};
ghost use Rattle.hs_deletion.specs.History.{IsMade};
ghost use Rattle.hs_deletion.specs.Promises.{SweepsExactly};

/// Where a shard completes the last row of a run it removes exactly its blocks that were born before the epoch and that no
/// anchor reaches.
pub fn a_sweep_removes_exactly_the_unreached()
    ensures exact { (layout : Layout) (m : Machine) → IsMade layout m → SweepsExactly layout m }
{}
