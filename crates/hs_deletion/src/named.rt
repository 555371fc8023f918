//! The counts.
ghost use Rattle.hs_limits.specs.declared.address.Address.{Address};
ghost use Rattle.hs_deletion.specs.Machine.{Layout, Machine};
ghost use Rattle.hs_deletion.specs.Anchors.{IsThere};
ghost use Rattle.hs_deletion.specs.Counts.{AreCountsRight};
ghost use Rattle.hs_deletion.specs.History.{IsMade};
ghost use Rattle.hs_deletion.specs.Promises.{IsUnnamed};

/// Along every lawful history each count is how often the address is named by what counts, but for what is on its way.
pub fn counts_are_right()
    ensures counts { (layout : Layout) (m : Machine) → IsMade layout m → AreCountsRight layout m }
{}

/// No block and no root that counts names an absent address, and no round on its way does.
pub fn nothing_names_what_is_absent()
    ensures unnamed { (layout : Layout) (m : Machine) (a : Address) → IsMade layout m → ¬ IsThere m.blocks a → IsUnnamed layout m a }
{}
