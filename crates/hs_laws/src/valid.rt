//! A store begins valid, and each event keeps it so.
ghost use Rattle.std.specs.Prelude.{ℕ, ◌<◌, IsTrue};
ghost use Rattle.hs_limits.specs.declared.limits.Limits.{Limits};
ghost use Rattle.hs_model.specs.declared.op.Op.{Op};
ghost use Rattle.hs_model.specs.Inner.{may_enter, enter, may_sweep, sweep};
ghost use Rattle.hs_model.specs.Judge.{judge};
ghost use Rattle.hs_model.specs.Store.{Store, empty_store, reborn};
ghost use Rattle.hs_laws.specs.Valid.{IsValid};

/// A store of at least one shard begins valid, and a valid one is valid after a stop.
pub fn store_begins_valid()
    ensures empty { (shards : ℕ) → 0 < shards → IsValid (empty_store shards) }
    ensures reborn { (s : Store) → IsValid s → IsValid (reborn s) }
{}

/// A shard that may enter its next epoch keeps a store valid.
pub fn enter_keeps_valid()
    ensures kept { (s : Store) (shard : ℕ) → IsValid s → IsTrue (may_enter s shard) → IsValid (enter s shard) }
{}

/// A shard that may sweep its epoch keeps a store valid.
pub fn sweep_keeps_valid()
    ensures kept { (s : Store) (shard : ℕ) → IsValid s → IsTrue (may_sweep s shard) → IsValid (sweep s shard) }
{}

/// Each operation keeps a store valid, whether it is refused or not.
pub fn judge_keeps_valid()
    ensures kept { (limits : Limits) (s : Store) (o : Op) → IsValid s → IsValid (judge limits s o).store }
{}
