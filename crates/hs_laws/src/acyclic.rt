//! No block of a store leads back to itself.
ghost use Rattle.std.specs.Prelude.{ℕ, List};
ghost use Rattle.hs_limits.specs.declared.limits.Limits.{Limits};
ghost use Rattle.hs_model.specs.Peel.{IsAcyclic};
ghost use Rattle.hs_model.specs.Run.{Event, IsLegal, run, step};
ghost use Rattle.hs_model.specs.Store.{Store, empty_store, reborn};
ghost use Rattle.hs_laws.specs.Distinct.{HasDistinctAddresses};
ghost use Rattle.hs_laws.specs.Runs.{IsLeft};
ghost use Rattle.hs_laws.specs.Valid.{IsValid};

/// A store begins without a way along pointers from a block back to it. In a valid store each event
/// keeps it so, and so does a stop. So what a legal run from nothing leaves has none.
pub fn stores_stay_acyclic()
    ensures empty { (shards : ℕ) → IsAcyclic (empty_store shards) }
    ensures reborn { (s : Store) → IsAcyclic s → IsAcyclic (reborn s) }
    ensures kept { (limits : Limits) (s : Store) (event : Event) → IsValid s → HasDistinctAddresses s → IsAcyclic s → IsAcyclic (step limits s event).store }
    ensures runs { (limits : Limits) (s : Store) (events : List Event) → IsValid s → HasDistinctAddresses s → IsLegal limits s events → IsAcyclic s → IsAcyclic (run limits s events) }
    ensures left { (limits : Limits) (s : Store) → IsLeft limits s → IsAcyclic s }
{}
