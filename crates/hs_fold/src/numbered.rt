//! Where a numbered list parts, and how it goes on.
ghost use Rattle.std.specs.Prelude.{◌≡◌, ◌+◌, ◌∷◌, ◌++◌, [], ℕ, List, false, length};
ghost use Rattle.hs_entry.specs.declared.entry.Entry.{Entry};
ghost use Rattle.hs_entry.specs.Entries.{is_of_base};
ghost use Rattle.hs_fold.specs.Pending.{behind, up_to};
ghost use Rattle.hs_fold.specs.Prefix.{IsNumbered, last_of};

/// The last number of a numbered list is its length. The length of a front parts the list into what
/// is up to it and what is behind it. With the next number the list goes on.
pub fn numbered_lists_part()
    ensures last { (list : List (ℕ × Entry)) → IsNumbered list → last_of list ≡ length list }
    ensures up_to { (front back : List (ℕ × Entry)) → IsNumbered (front ++ back) →
        up_to (length front) (front ++ back) ≡ front }
    ensures behind { (front back : List (ℕ × Entry)) → IsNumbered (front ++ back) →
        behind (length front) (front ++ back) ≡ back }
    ensures more { (list : List (ℕ × Entry)) (entry : Entry) → IsNumbered list
        → is_of_base entry ≡ false → IsNumbered (list ++ (length list + 1, entry) ∷ []) }
{}
