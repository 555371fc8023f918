//! A sweep removes what it should, and nothing else.
ghost use Rattle.std.specs.Prelude.{◌≡◌, ℕ, slice_index};
ghost use Rattle.hs_model.specs.Inner.{sweep};
ghost use Rattle.hs_model.specs.Reach.{unreachable};
ghost use Rattle.hs_model.specs.Store.{Store};
ghost use Rattle.hs_laws.specs.Distinct.{HasDistinctAddresses};
ghost use Rattle.hs_laws.specs.Unreached.{ListsUnreached, KeepsTheRest, KeepsItsGiven};

/// The sweep of a shard removes exactly the blocks of the shard that were born before its epoch and
/// that no anchor of that epoch's run reaches, and what was given there.
pub fn sweep_is_exact()
    ensures listed { (s : Store) (run shard : ℕ) → HasDistinctAddresses s → ListsUnreached s run shard (unreachable s run shard) }
    ensures blocks { (s : Store) (shard : ℕ) → HasDistinctAddresses s → KeepsTheRest s (slice_index s.epochs shard) shard (sweep s shard) }
    ensures given { (s : Store) (shard : ℕ) → KeepsItsGiven s (sweep s shard) }
    ensures roots { (s : Store) (shard : ℕ) → (sweep s shard).roots ≡ s.roots }
    ensures epochs { (s : Store) (shard : ℕ) → (sweep s shard).epochs ≡ s.epochs }
    ensures sessions { (s : Store) (shard : ℕ) → (sweep s shard).sessions ≡ s.sessions }
{}
