//! What is left behind the last deletions.
ghost use Rattle.std.specs.List.{AllByRecursion};
ghost use Rattle.std.specs.Prelude.{◌≡◌, ℕ, List, Some};
ghost use Rattle.hs_deeds.specs.Told.{store_after};
ghost use Rattle.hs_limits.specs.declared.address.Address.{Address};
ghost use Rattle.hs_limits.specs.declared.limits.Limits.{Limits};
ghost use Rattle.hs_loaded.specs.Leaving.{ChangesNothingHeld, HaveSweptTwice, IsUpTo};
ghost use Rattle.hs_loaded.specs.Leaving.{retained_addresses};
ghost use Rattle.hs_model.specs.declared.store.StoredBlock.{StoredBlock};
ghost use Rattle.hs_model.specs.Deeds.{AreDeeds, DeedEntry};
ghost use Rattle.hs_model.specs.Reach.{IsReached};
ghost use Rattle.hs_model.specs.Store.{Store, block_at};

/// Where nothing in a valid store is ahead of an epoch, and the deeds behind it are those of deletion
/// runs alone, beside refusals and notes: once each shard has swept two epochs more, each present block
/// is reached from a retained root.
pub fn two_deletions_leave_what_roots_reach()
    ensures { (limits : Limits) (s : Store) (epoch : ℕ) (before entries : List DeedEntry)
        → IsUpTo s epoch → AreDeeds limits s before entries
        → AllByRecursion (λ e. ChangesNothingHeld e.deed) entries
        → HaveSweptTwice (store_after s entries) epoch →
        (a : Address) (stored : StoredBlock) → block_at (store_after s entries) a ≡ Some stored →
        IsReached (store_after s entries) (retained_addresses (store_after s entries)) a }
{}
