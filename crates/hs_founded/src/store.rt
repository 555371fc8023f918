//! The store of sound lists.
ghost use Rattle.std.specs.List.{AllByRecursion};
ghost use Rattle.std.specs.Prelude.{◌≡◌, [], ℕ, List, Some, unwrap_or};
ghost use Rattle.hs_fold.specs.Runs.Opened.{catalogues, store_of};
ghost use Rattle.hs_fold.specs.Shards.Setting.{Numbered, Setting};
ghost use Rattle.hs_founded.specs.Spelled.{AreBytes, AreSpelled};
ghost use Rattle.hs_founded.specs.Store.{IsAtItsName};
ghost use Rattle.hs_laws.specs.Distinct.{HasDistinctAddresses};
ghost use Rattle.hs_laws.specs.Valid.{IsValid};
ghost use Rattle.hs_limits.specs.Shape.{IsShape};
ghost use Rattle.hs_limits.specs.declared.address.Address.{Address};
ghost use Rattle.hs_model.specs.Peel.{IsAcyclic};
ghost use Rattle.hs_model.specs.Store.{block_at};
ghost use Rattle.hs_model.specs.declared.store.StoredBlock.{StoredBlock};
ghost use Rattle.hs_ports.specs.declared.disk.Side.{Side};
ghost use Rattle.hs_side.specs.Current.{list_in};
ghost use Rattle.hs_sound.specs.Stay.{AreSoundAlong};

use hs_deletion::lawful_histories_keep_the_invariants;
use hs_joint::folds_follow_the_machine;

/// The store at which sound lists open is valid (`valid`), has no address twice (`distinct`), and leads
/// no block back to itself (`acyclic`). Where each Block has the bytes that spell a block, each block is
/// within its bounds and stands at its name (`named`). The list of a disk whose sides hold bytes is so
/// (`spelled`).
pub fn a_store_of_sound_lists_is_right()
    ensures valid { (set : Setting) (lists : List Numbered)
        → AreSoundAlong set lists → IsValid (store_of (catalogues set 0 lists)) }
    ensures distinct { (set : Setting) (lists : List Numbered)
        → HasDistinctAddresses (store_of (catalogues set 0 lists)) }
    ensures acyclic { (set : Setting) (lists : List Numbered)
        → IsShape set.shape → AreSoundAlong set lists → IsAcyclic (store_of (catalogues set 0 lists)) }
    ensures named { (set : Setting) (lists : List Numbered)
        → IsShape set.shape → AreSoundAlong set lists → AllByRecursion AreSpelled lists
        → (a : Address) (stored : StoredBlock)
        → block_at (store_of (catalogues set 0 lists)) a ≡ Some stored → IsAtItsName set.name a stored }
    ensures spelled { (seen : Side → List ℕ) → ((side : Side) → AreBytes (seen side)) →
        AreSpelled (unwrap_or (list_in seen) []) }
{
    folds_follow_the_machine();
    lawful_histories_keep_the_invariants();
}
