//! How long a peer is good.
ghost use Rattle.std.specs.Prelude.{◌≡◌, ◌<◌, ℕ, false, true};
ghost use Rattle.hs_events.specs.Beginning.{first_items};
ghost use Rattle.hs_events.specs.Found.{starts_good};
ghost use Rattle.hs_events.specs.Taken.{peer_count};
ghost use Rattle.hs_fold.specs.Good.{good_from, is_good};
ghost use Rattle.hs_journal.specs.Moments.{below};
ghost use Rattle.hs_journal.specs.Notes.{note_count};
ghost use Rattle.hs_promise.specs.Lost.{IsPast};
ghost use Rattle.hs_promise.specs.Machine.{Went};
ghost use Rattle.hs_promise.specs.Run.{Ran, Script};
ghost use Rattle.hs_promise.specs.Story.{Story};
ghost use Rattle.hs_promise.specs.Untold.{IsGoodUntold, NoneFails};

/// Where opening was gone past, each peer to which the store was open is good at each moment below which no
/// note tells that it is down, where no line asks it to fail (`untold`): with several copies whatever is
/// known, and with one where each peer that was good as the core opened is so by the beginning of the
/// course. So it is of a peer that was good as the core opened, and is so by that (`stays`). With one copy a
/// shard each peer was good then (`opens`).
pub fn a_peer_is_good_until_it_is_told()
    ensures opens { (S : Script) (r : Ran) (story : Story) → S.set.shape.copies ≡ 1
        → Went S r story → IsPast r 0 → (peer : ℕ) → peer < peer_count S.set.shape
        → starts_good story.found peer ≡ true }
    ensures stays { (S : Script) (r : Ran) (story : Story)
        → Went S r story → IsPast r 0 → (m peer : ℕ) → peer < peer_count S.set.shape
        → starts_good story.found peer ≡ true
        → good_from false (first_items S.set.shape story.found r.old.moment) m peer ≡ true
        → note_count peer (below m r.journal) ≡ 0 → NoneFails S r peer
        → is_good r.course m peer ≡ true }
    ensures untold { (S : Script) (r : Ran) (story : Story) → Went S r story
        → (S.set.shape.copies ≡ 1 → (m peer : ℕ) → r.old.moment < m → peer < peer_count S.set.shape
        → starts_good story.found peer ≡ true
        → good_from false (first_items S.set.shape story.found r.old.moment) m peer ≡ true) →
        IsGoodUntold S r }
{}
