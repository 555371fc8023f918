//! Shards stay in step.
ghost use Rattle.hs_deletion.specs.Machine.{Layout, Machine};
ghost use Rattle.hs_deletion.specs.History.{IsMade};
ghost use Rattle.hs_deletion.specs.Promises.{AreInStep};

/// Epochs differ by at most one. No shard has sent more than two rounds that another has not completed, so the last two
/// that each sent are enough to keep; and what it has not sent says nothing.
pub fn rounds_run_in_step()
    ensures step { (layout : Layout) (m : Machine) → IsMade layout m → AreInStep layout m }
{}
