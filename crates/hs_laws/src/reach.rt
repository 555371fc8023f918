//! What is listed as reached is what is reached.
ghost use Rattle.std.specs.Prelude.{IsTrue, List};
ghost use Rattle.hs_limits.specs.declared.address.Address.{Address};
ghost use Rattle.hs_model.specs.Reach.{IsReached, is_among, reached_from};
ghost use Rattle.hs_model.specs.Store.{Store};
ghost use Rattle.hs_laws.specs.Distinct.{HasDistinctAddresses};
ghost use Rattle.hs_laws.specs.Reached.{IsListOf};

/// `reached_from` lists exactly the addresses that `IsReached` says. That it lists all of them needs
/// no premise.
pub fn reached_is_reached()
    ensures exact { (s : Store) (from : List Address) → HasDistinctAddresses s → IsListOf (reached_from s from) (IsReached s from) }
    ensures all { (s : Store) (from : List Address) (a : Address) → IsReached s from a → IsTrue (is_among (reached_from s from) a) }
{}
