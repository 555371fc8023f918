//! What holds after every legal run of events.
ghost use Rattle.std.specs.Prelude.{◌≡◌, List, None, Contains};
ghost use Rattle.hs_limits.specs.declared.address.Held.{Held};
ghost use Rattle.hs_limits.specs.declared.limits.Limits.{Limits};
ghost use Rattle.hs_model.specs.Run.{Event, IsLegal, run};
ghost use Rattle.hs_model.specs.Store.{Store, Root};
ghost use Rattle.hs_laws.specs.Held.{IsHeld, IsFreshHeld};
ghost use Rattle.hs_laws.specs.Order.{IsInOrder};
ghost use Rattle.hs_laws.specs.Reached.{IsWhole};
ghost use Rattle.hs_laws.specs.Runs.{IsLeft};
ghost use Rattle.hs_laws.specs.Valid.{IsValid};

/// A legal run keeps a store valid. So what a legal run from nothing leaves is valid, its lists are in
/// order, and all is present that is kept for a client.
pub fn legal_runs_keep_all()
    ensures kept { (limits : Limits) (s : Store) (events : List Event) → IsValid s → IsLegal limits s events → IsValid (run limits s events) }
    ensures valid { (limits : Limits) (s : Store) → IsLeft limits s → IsValid s }
    ensures ordered { (limits : Limits) (s : Store) → IsLeft limits s → IsInOrder s }
    ensures rooted { (limits : Limits) (s : Store) (root : Root) → IsLeft limits s → Contains s.roots root → root.dropped ≡ None → IsWhole s root.address }
    ensures held { (limits : Limits) (s : Store) (held : Held) → IsLeft limits s → IsHeld s held → IsFreshHeld s held → IsWhole s held.address }
{}
