//! Which lines the entries above what took effect are of.
ghost use Rattle.std.specs.Prelude.{◌≡◌, ℕ, Bool, List, None, Option, true};
ghost use Rattle.hs_entry.specs.declared.entry.Entry.{Entry};
ghost use Rattle.hs_copies.specs.Invariant.{AreFaithful};
ghost use Rattle.hs_copies.specs.Lines.{AreLinesOpen, CanComeToLines, LineEvent, LinedCopies, after_line_event};
ghost use Rattle.hs_copies.specs.Lists.{Item};
ghost use Rattle.hs_copies.specs.Opened.{opened_copies};

/// In each list that has all that took effect, each later entry of a line is of a line without an answer, and no line
/// has two: when the shard is opened, and after every event that may come.
pub fn pending_entries_are_of_open_lines()
    ensures opened { (line : Entry → Option ℕ) (waits : ℕ → Bool) (view : ℕ) (log : List (Item Entry)) (good : ℕ → Bool)
        (lead : ℕ) (what : Entry) → good lead ≡ true → line what ≡ None
        → AreLinesOpen line waits (opened_copies view log good lead what) }
    ensures kept { (line : Entry → Option ℕ) (w : LinedCopies Entry) (event : LineEvent Entry) → AreFaithful w.copies
        → AreLinesOpen line w.waits w.copies → CanComeToLines line w event
        → AreLinesOpen line (after_line_event event w).waits (after_line_event event w).copies }
{}
