//! What stays true of the copies of a shard, whatever happens to them.
ghost use Rattle.std.specs.Prelude.{◌≡◌, ℕ, suc, Bool, List, true};
ghost use Rattle.hs_entry.specs.declared.entry.Entry.{Entry};
ghost use Rattle.hs_copies.specs.Invariant.{AreFaithful};
ghost use Rattle.hs_copies.specs.Lists.{AreBelow, Item, Rises};
ghost use Rattle.hs_copies.specs.Machine.{Copies, CopyEvent, CanCome, after_event};
ghost use Rattle.hs_copies.specs.Opened.{IsCopyRun, opened_copies};

/// The copies of a shard are faithful when it is opened with a list whose views never fall, and every
/// event that may come keeps them so.
pub fn events_keep_the_copies_faithful()
    ensures opened { (view : ℕ) (log : List (Item Entry)) (good : ℕ → Bool) (lead : ℕ) (what : Entry)
        → Rises 0 log → AreBelow (suc view) log → good lead ≡ true
        → AreFaithful (opened_copies view log good lead what) }
    ensures kept { (s : Copies Entry) (event : CopyEvent Entry) → AreFaithful s → CanCome s event
        → AreFaithful (after_event event s) }
    ensures run { (s : Copies Entry) → IsCopyRun s → AreFaithful s }
{}
