//! What a core beside the whole lists of its peers owes to those who do its jobs and keep its disks is so.
ghost use Rattle.std.specs.Prelude.{ℕ};
ghost use Rattle.hs_cluster.specs.Steady.{AreSteady, IsSteady, StepsSteadily};
ghost use Rattle.hs_copies.specs.Machine.{Copies};
ghost use Rattle.hs_core_words.specs.declared.event.Event.{Event};
ghost use Rattle.hs_entry.specs.declared.entry.Entry.{Entry};
ghost use Rattle.hs_events.specs.Due.{Events};
ghost use Rattle.hs_events.specs.Found.{Found};
ghost use Rattle.hs_events.specs.Whole.{Whole, open_whole};
ghost use Rattle.hs_fold.specs.Shards.Setting.{Setting};
ghost use Rattle.hs_whole_copies.specs.Opening.{MayOpenWhole};
ghost use Rattle.hs_whole_copies.specs.Whole.{IsWholeInStep};

/// Where the whole lists are those of a machine of each shard's copies, what is sealed of each peer's list is within it,
/// and a peer's first job asks for what is next: a good peer appends or seals the first entry that is not sealed, or
/// reads; a joining one is emptied while nothing is told of its log, or gets the entry that comes next in the lead's
/// list, sealed there, which is all that its disk may have more.
pub fn what_is_whole_in_step_is_steady()
    ensures { (c : Whole) (machines : ℕ → Copies Entry) → IsWholeInStep c machines → IsSteady c }
{}

/// So whatever comes: where the core goes on, each peer's log that is told of is what it was, or what its report
/// tells, with the entry that waits behind it; of a disk that has failed, and of a peer that a line has fail, none is
/// told. Where a shard is lost each list still begins as it did, and no more of it is sealed.
pub fn each_event_is_steady()
    ensures { (c : Whole) (event : Event) (moment : ℕ) (machines : ℕ → Copies Entry)
        → IsWholeInStep c machines → StepsSteadily c (event, moment) }
{}

/// So along any events (`along`), and from the opening on (`opened`): nothing is asked but how the lists are with
/// which the store opens.
pub fn a_store_goes_on_steadily()
    ensures along { (c : Whole) (events : Events) (machines : ℕ → Copies Entry)
        → IsWholeInStep c machines → AreSteady c events }
    ensures opened { (set : Setting) (found : Found) (events : Events) → MayOpenWhole set found
        → AreSteady (open_whole set found) events }
{}
