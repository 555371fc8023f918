//! Lineage: which list goes on from which.
ghost use Rattle.std.specs.Prelude.{◌≡◌, ℕ, suc, ◌≤◌, List, Some, length, slice_get, take};
ghost use Rattle.hs_entry.specs.declared.entry.Entry.{Entry};
ghost use Rattle.hs_copies.specs.Invariant.{AreFaithful, reach};
ghost use Rattle.hs_copies.specs.Lists.{IsAtMost, IsFront, Item, rank_by_stamps};
ghost use Rattle.hs_copies.specs.Machine.{Copies, Good};

/// A list of at least the rank of a good one begins with it: of a good peer's list take any front, and of
/// any peer's list, with what its copying may have added, any front whose rank isn't less. So it has all
/// that took effect where the good peer's front has. And lists that have entries of one view at one number are one up
/// to it.
pub fn a_list_of_greater_rank_goes_on_from_a_good_one()
    ensures lineage { (s : Copies Entry) (p y : ℕ) (front other : List (Item Entry)) → AreFaithful s
        → (s.peers p).stage ≡ Good → IsFront front (s.peers p).list → IsFront other (reach (s.peers y))
        → IsAtMost (rank_by_stamps front) (rank_by_stamps other) → IsFront front other }
    ensures effects { (s : Copies Entry) (p y : ℕ) (front other : List (Item Entry)) → AreFaithful s
        → (s.peers p).stage ≡ Good → IsFront front (s.peers p).list → (s.peers p).known ≤ length front
        → IsFront other (reach (s.peers y)) → IsAtMost (rank_by_stamps front) (rank_by_stamps other)
        → IsFront s.took other }
    ensures common { (s : Copies Entry) (p q n : ℕ) (x y : Item Entry) → AreFaithful s
        → slice_get (reach (s.peers p)) n ≡ Some x → slice_get (reach (s.peers q)) n ≡ Some y → x.view ≡ y.view
        → take (suc n) (reach (s.peers p)) ≡ take (suc n) (reach (s.peers q)) }
{}
