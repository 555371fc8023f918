//! What a stop leaves on the disks, and what is chosen of it.
ghost use Rattle.std.specs.Prelude.{◌≡◌, ℕ, List, Option, Some, slice_get};
ghost use Rattle.hs_entry.specs.declared.entry.Entry.{Entry};
ghost use Rattle.hs_replica.specs.Group.{view_after};
ghost use Rattle.hs_copies.specs.CoreCopies.{CoreCopies};
ghost use Rattle.hs_copies.specs.Images.{AreImages, HasGreatestRank, IsFine, IsReported};
ghost use Rattle.hs_copies.specs.Invariant.{AreFaithful};
ghost use Rattle.hs_copies.specs.Lines.{LinedCopies};
ghost use Rattle.hs_copies.specs.Lists.{IsAtMost, IsFront, Item};
ghost use Rattle.hs_copies.specs.Machine.{Copies, CopyEvent, CanCome, Good, after_event};
ghost use Rattle.hs_copies.specs.Runs.{IsChosen, IsSinceOpening, EntryReading};
ghost use Rattle.hs_copies.specs.Stamps.{rank_told};
ghost use Rattle.hs_copies.specs.Standing.{StandsFor};

/// What a peer's disk may leave stays a front of the peer's list, and at least as long as what is known
/// to be sealed, through every event that may come, where the reports of disk work are true.
pub fn images_are_fronts()
    ensures kept { (s : Copies Entry) (q : ℕ) (l : List (Item Entry)) (event : CopyEvent Entry) → AreFaithful s
        → IsFine (s.peers q) l → CanCome s event → IsReported s event q l → IsFine ((after_event event s).peers q) l }
{}

/// Entries of one view at one number are equal, whatever the disks of two peers may leave; and what that of a
/// good peer may leave is a front of the lead's list.
pub fn entries_of_one_stamp_are_equal()
    ensures entries { (s : Copies Entry) (p q n : ℕ) (l k : List (Item Entry)) (x y : Item Entry) → AreFaithful s
        → IsFine (s.peers p) l → IsFine (s.peers q) k → slice_get l n ≡ Some x → slice_get k n ≡ Some y
        → x.view ≡ y.view → x ≡ y }
    ensures front { (s : Copies Entry) (p : ℕ) (l : List (Item Entry)) → AreFaithful s → (s.peers p).stage ≡ Good
        → IsFine (s.peers p) l → IsFront l s.log }
{}

/// Among what the disks may leave, of a good peer and of others that are behind or blank, the list of
/// greatest rank has all that took effect. Ranks are those of the stamps; or those that the entries tell,
/// and then too each later entry of a line is of a line without an answer, and no line has two. So it is
/// of the core's copies.
pub fn the_list_of_greatest_rank_has_all_that_took_effect()
    ensures greatest { (s : Copies Entry) (p y : ℕ) (images : ℕ → List (Item Entry)) → AreFaithful s
        → AreImages s p images → HasGreatestRank images y → IsFront s.took (images y) }
    ensures told { (e : EntryReading Entry) (log : List (Item Entry)) (w : LinedCopies Entry) → IsSinceOpening e log w
        → (p y : ℕ) (images : ℕ → List (Item Entry)) → AreImages w.copies p images
        → ((q : ℕ) → IsAtMost (rank_told e.tells (images q)) (rank_told e.tells (images y)))
        → IsChosen e w (images y) }
    ensures core { (line : Entry → Option ℕ) (c : CoreCopies) (s : Copies Entry) (p y : ℕ) (images : ℕ → List (Item Entry))
        → StandsFor line c s → AreImages s p images
        → ((q : ℕ) → IsAtMost (rank_told view_after (images q)) (rank_told view_after (images y)))
        → IsChosen (record { line = line; tells = view_after }) (record { copies = s; waits = c.waits }) (images y) }
{}
