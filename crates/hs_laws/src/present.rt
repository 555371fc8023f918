//! What is kept for a client is present.
ghost use Rattle.std.specs.Prelude.{◌≡◌, None, Contains};
ghost use Rattle.hs_limits.specs.declared.address.Held.{Held};
ghost use Rattle.hs_model.specs.Store.{Store, Root};
ghost use Rattle.hs_laws.specs.Held.{IsHeld, IsFreshHeld};
ghost use Rattle.hs_laws.specs.Reached.{IsWhole};
ghost use Rattle.hs_laws.specs.Valid.{IsValid};

/// In a valid store each address that a root which is not dropped reaches is present, and each that
/// a held address reaches which may still be used.
pub fn what_is_kept_is_present()
    ensures rooted { (s : Store) (root : Root) → IsValid s → Contains s.roots root → root.dropped ≡ None → IsWhole s root.address }
    ensures held { (s : Store) (held : Held) → IsValid s → IsHeld s held → IsFreshHeld s held → IsWhole s held.address }
{}
