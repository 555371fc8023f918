//! The lists of a store stay in their order.
ghost use Rattle.std.specs.Prelude.{ℕ, List};
ghost use Rattle.hs_limits.specs.declared.limits.Limits.{Limits};
ghost use Rattle.hs_model.specs.Run.{Event, run, step};
ghost use Rattle.hs_model.specs.Store.{Store, empty_store};
ghost use Rattle.hs_laws.specs.Distinct.{HasDistinctAddresses};
ghost use Rattle.hs_laws.specs.Order.{IsInOrder};

/// The lists of a store are in their order at the start, and each event keeps them so. Where they are,
/// addresses are distinct.
pub fn lists_stay_in_order()
    ensures empty { (shards : ℕ) → IsInOrder (empty_store shards) }
    ensures kept { (limits : Limits) (s : Store) (event : Event) → IsInOrder s → IsInOrder (step limits s event).store }
    ensures runs { (limits : Limits) (s : Store) (events : List Event) → IsInOrder s → IsInOrder (run limits s events) }
    ensures distinct { (s : Store) → IsInOrder s → HasDistinctAddresses s }
{}
