//! A run goes on, and comes to an end.
ghost use Rattle.hs_deletion.specs.Machine.{Layout, Machine};
ghost use Rattle.hs_deletion.specs.History.{IsMade};
ghost use Rattle.hs_deletion.specs.Promises.{GoesOn, LowersRemaining};

/// While a shard is in a run some shard can go on: it may complete a row, or it may enter that run.
pub fn a_run_goes_on()
    ensures on { (layout : Layout) (m : Machine) → IsMade layout m → GoesOn layout m }
{}

/// A search leaves exactly so many fewer blocks that are no zero blocks, and roots, as the round that it sends tells.
pub fn a_search_lowers_what_remains()
    ensures lowered { (layout : Layout) (m : Machine) → LowersRemaining layout m }
{}
