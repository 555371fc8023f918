//! No address comes to stand for two blocks.
ghost use Rattle.std.specs.Prelude.{ℕ, List};
ghost use Rattle.hs_limits.specs.declared.limits.Limits.{Limits};
ghost use Rattle.hs_model.specs.Run.{Event, run, step};
ghost use Rattle.hs_model.specs.Store.{Store, empty_store};
ghost use Rattle.hs_laws.specs.Distinct.{HasDistinctAddresses};

/// The addresses of present blocks are distinct at the start, and each event keeps them so.
pub fn addresses_stay_distinct()
    ensures empty { (shards : ℕ) → HasDistinctAddresses (empty_store shards) }
    ensures kept { (limits : Limits) (s : Store) (event : Event) → HasDistinctAddresses s → HasDistinctAddresses (step limits s event).store }
    ensures runs { (limits : Limits) (s : Store) (events : List Event) → HasDistinctAddresses s → HasDistinctAddresses (run limits s events) }
{}
