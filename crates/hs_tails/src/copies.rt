//! Lists of the copies of a shard, as the machine has them.
ghost use Rattle.std.specs.Prelude.{◌≡◌, ◌⊎◌, ℕ, List, length};
ghost use Rattle.hs_answered.specs.Telling.{Judging};
ghost use Rattle.hs_copies.specs.Invariant.{AreFaithful};
ghost use Rattle.hs_copies.specs.Lists.{IsFront, Item, end_view};
ghost use Rattle.hs_copies.specs.Machine.{CanCome, Copies, CopyEvent, after_event};
ghost use Rattle.hs_core_copies.specs.InStep.{IsInStep};
ghost use Rattle.hs_core_words.specs.State.{Core};
ghost use Rattle.hs_entry.specs.declared.entry.Entry.{Entry};
ghost use Rattle.hs_fold.specs.Runs.Facts.{Catalogue as Folded};
ghost use Rattle.hs_model.specs.Store.{Store};
ghost use Rattle.hs_tails.specs.Known.{IsKnown, KnownListsRest, entries_behind};
ghost use Rattle.hs_tails.specs.Tails.{RestsIn, TakesFirst};

/// Behind an event of the machine each list that begins the lead's, or what some peer's disk may have,
/// did so before, or begins the lead's now (`event`): so a list that is not the lead's was once. Once the
/// View of the current view has taken effect, each that has all that took effect begins the lead's (`settled`).
pub fn each_list_was_known_or_is_the_leads()
    ensures event { (copies : Copies Entry) (event : CopyEvent Entry) (list : List (Item Entry))
        → AreFaithful copies → CanCome copies event → IsKnown (after_event event copies) list →
        IsKnown copies list ⊎ IsFront list (after_event event copies).log }
    ensures settled { (copies : Copies Entry) (list : List (Item Entry))
        → AreFaithful copies → end_view 0 copies.took ≡ copies.view
        → IsKnown copies list → IsFront copies.took list → IsFront list copies.log }
{}

/// Where a shard goes on in step by an event, each list that was known, and that has all that took
/// effect still, has behind that what rests on what is there.
pub fn known_lists_go_on()
    ensures { (by : Judging) (start : Store) (old new : Core) (cs : List Folded)
        (taken : TakesFirst by start old new cs) (shard : ℕ) (copies later : Copies Entry)
        → IsInStep shard old copies → IsInStep shard new later → IsFront later.took copies.log
        → KnownListsRest by.name old cs shard copies → (list : List (Item Entry))
        → IsKnown copies list → IsFront later.took list →
        RestsIn by.name new taken.gone.after shard (entries_behind (length later.took) list) }
{}
