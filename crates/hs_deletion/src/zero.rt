//! Which blocks are zero blocks.
ghost use Rattle.hs_deletion.specs.Machine.{Layout, Machine};
ghost use Rattle.hs_deletion.specs.History.{IsMade};
ghost use Rattle.hs_deletion.specs.Promises.{HasEachZero, HasNoWrongZero};

/// A block that the run of its shard's epoch reaches was given in that epoch, or is no zero block.
pub fn no_reached_block_is_a_wrong_zero()
    ensures none { (layout : Layout) (m : Machine) → IsMade layout m → HasNoWrongZero layout m }
{}

/// Where a shard completes the last round of a run, each of its blocks that was born before the epoch and that the run
/// does not reach is a zero block, and was not given in the epoch.
pub fn each_unreached_block_is_found()
    ensures found { (layout : Layout) (m : Machine) → IsMade layout m → HasEachZero layout m }
{}
