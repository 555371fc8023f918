//! Good lists and what took effect.
ghost use Rattle.std.specs.Prelude.{◌≡◌, ℕ};
ghost use Rattle.hs_entry.specs.declared.entry.Entry.{Entry};
ghost use Rattle.hs_copies.specs.Invariant.{AreFaithful};
ghost use Rattle.hs_copies.specs.Lists.{IsFront};
ghost use Rattle.hs_copies.specs.Machine.{Copies, CopyEvent, Good, after_event};

/// A good peer's list is a front of the lead's, with its stamps, and what took effect is a front of both.
/// No entry that took effect ever leaves them.
pub fn good_lists_are_fronts_of_the_leads()
    ensures lead { (s : Copies Entry) (p : ℕ) → AreFaithful s → (s.peers p).stage ≡ Good
        → IsFront (s.peers p).list s.log }
    ensures took { (s : Copies Entry) (p : ℕ) → AreFaithful s → (s.peers p).stage ≡ Good
        → IsFront s.took (s.peers p).list }
    ensures stays { (s : Copies Entry) (event : CopyEvent Entry) → IsFront s.took (after_event event s).took }
{}
