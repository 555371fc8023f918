//! What holds along every lawful history, and what a client may write.
ghost use Rattle.std.specs.Prelude.{◌≡◌, ℕ, ◌<◌, List};
ghost use Rattle.hs_limits.specs.declared.address.Address.{Address};
ghost use Rattle.hs_limits.specs.Epoch.{IsFresh};
ghost use Rattle.hs_limits.specs.Shape.{shard_of};
ghost use Rattle.hs_deletion.specs.Machine.{Layout, Machine, empty_machine};
ghost use Rattle.hs_deletion.specs.Anchors.{IsHeldOf};
ghost use Rattle.hs_deletion.specs.History.{Effect, after_effect, history, IsBacked, IsLawful, IsMade, MayHappen};
ghost use Rattle.hs_deletion.specs.Invariants.{IsRight};

/// The empty machine has the invariants, every lawful history keeps them, and so each machine that one makes has them.
/// One more entry that may take effect makes such a machine again.
pub fn lawful_histories_keep_the_invariants()
    ensures empty { (layout : Layout) → IsRight layout empty_machine }
    ensures kept { (layout : Layout) (effects : List Effect) (m : Machine) → IsRight layout m → IsLawful layout effects m → IsRight layout (history layout effects m) }
    ensures right { (layout : Layout) (m : Machine) → IsMade layout m → IsRight layout m }
    ensures made { (layout : Layout) (m : Machine) (effect : Effect) → IsMade layout m → MayHappen layout effect m → IsMade layout (after_effect layout effect m) }
{}

/// A store of any number of shards has a layout: an address is of the shard that its last byte gives.
pub fn the_store_has_a_layout()
    ensures found { (shards : ℕ) → 0 < shards → (layout : Layout) × (layout.shards ≡ shards) × ((a : Address) → layout.home a ≡ shard_of shards a) }
{}

/// What was given in an epoch and is still fresh at a shard is backed there: a write with such a pointer, and a root with
/// such an address, may take effect.
pub fn what_may_be_used_is_backed()
    ensures backed { (m : Machine) (shard epoch : ℕ) (a : Address) → IsFresh epoch (m.states shard).epoch → IsHeldOf m epoch a → IsBacked m shard a }
{}
