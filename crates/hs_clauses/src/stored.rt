//! The blocks of a shard are of its list, and so is what is read.
ghost use Rattle.std.specs.Prelude.{◌≡◌, ◌<◌, ℕ, None, length};
ghost use Rattle.hs_cluster.specs.Kept.{AreStored};
ghost use Rattle.hs_copies.specs.Machine.{Copies};
ghost use Rattle.hs_core_words.specs.State.{Core};
ghost use Rattle.hs_core_words.specs.Step.{step};
ghost use Rattle.hs_core_words.specs.declared.event.Event.{Event};
ghost use Rattle.hs_entry.specs.declared.entry.Entry.{Entry};
ghost use Rattle.hs_events.specs.Due.{Events};
ghost use Rattle.hs_events.specs.Found.{Found, first_core, opened_list};
ghost use Rattle.hs_events.specs.Sane.{IsFromOne, IsSane};
ghost use Rattle.hs_events.specs.Taken.{peer_count};
ghost use Rattle.hs_events.specs.Whole.{Whole, open_whole};
ghost use Rattle.hs_fold.specs.Shards.Setting.{Setting};
ghost use Rattle.hs_clauses.specs.Numbered.{AreNumbered};
ghost use Rattle.hs_whole_copies.specs.Whole.{IsWholeInStep};

/// Each block that a shard has carries the number of an entry that took effect there, whatever the lists
/// say: so it is of a core that opens with lists which are numbered from 1 on (`opens`), and so it stays
/// by every event (`event`), with any number of copies.
pub fn each_block_is_of_an_entry()
    ensures opens { (set : Setting) (found : Found)
        → ((shard : ℕ) → shard < set.shape.shards → IsFromOne (opened_list set found shard)) →
        AreNumbered (first_core set found) }
    ensures event { (core : Core) (event : Event) (moment : ℕ) → AreNumbered core →
        AreNumbered (step event moment core) }
{}

/// So, on a sane store of one copy a shard, what a peer is to read is in what is sealed of its list, where
/// its shard has a block by that number: before each of any events (`along`), and from opening on, where
/// the core goes on behind it and its lists are numbered from 1 on (`opens`). With any number of copies it
/// is before each of any events where the whole lists are those of machines of the copies (`copies`).
pub fn what_is_read_is_sealed()
    ensures along { (c : Whole) (events : Events) → IsSane c → AreNumbered c.core →
        AreStored c events }
    ensures opens { (set : Setting) (found : Found) (events : Events) → set.shape.copies ≡ 1
        → (first_core set found).ended ≡ None
        → ((shard : ℕ) → shard < set.shape.shards → IsFromOne (opened_list set found shard))
        → length found.good ≡ peer_count set.shape →
        AreStored (open_whole set found) events }
    ensures copies { (c : Whole) (machines : ℕ → Copies Entry) (events : Events)
        → IsWholeInStep c machines → AreNumbered c.core → AreStored c events }
{}
