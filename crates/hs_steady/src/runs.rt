//! The lists that a whole run of a store of several copies shows.
ghost use Rattle.std.specs.Prelude.{◌≡◌, ℕ, true, List, None, Some, take};
ghost use Rattle.hs_cluster.specs.Disks.{stands_of};
ghost use Rattle.hs_cluster.specs.Kept.{LeavesLists, Span};
ghost use Rattle.hs_copies.specs.Machine.{Copies};
ghost use Rattle.hs_core_words.specs.Looking.{home, lead_of, status_of};
ghost use Rattle.hs_entry.specs.declared.entry.Entry.{Entry};
ghost use Rattle.hs_entry.specs.Entries.{rank_of};
ghost use Rattle.hs_events.specs.Due.{Events};
ghost use Rattle.hs_events.specs.Found.{Found, first_core};
ghost use Rattle.hs_events.specs.Whole.{Whole, counts, open_whole, reach};
ghost use Rattle.hs_fold.specs.Images.{IsLeft};
ghost use Rattle.hs_fold.specs.Shards.Setting.{Numbered, Setting};
ghost use Rattle.hs_limits.specs.declared.limits.PeerStatus.TheVariants.{Good};
ghost use Rattle.hs_members.specs.Members.{IsPeer};
ghost use Rattle.hs_moments.specs.WholeMachine.{IsFrontOf};
ghost use Rattle.hs_ports.specs.declared.disk.Side.{Side};
ghost use Rattle.hs_ports.specs.Moments.{disk_at};
ghost use Rattle.hs_side.specs.Current.{list_in};
ghost use Rattle.hs_steady.specs.Moments.{IsMomentOf, ShowsOpened};
ghost use Rattle.hs_whole_copies.specs.Opening.{MayOpenWhole};
ghost use Rattle.hs_whole_copies.specs.Whole.{IsWholeInStep};

/// What a run on disks shows of lists that go on as they should (`ShowsOpened`), whatever a stop left at entry, it shows
/// of the store that it opened: at each moment from the opening of its core on, and behind its end, whatever a stop
/// leaves of a disk that counts begins its peer's list, with all that is sealed of it; and each report told what has been
/// sealed of the list of the peer that was asked. Nothing is asked but how the lists are with which the store opens.
pub fn a_run_shows_its_lists()
    ensures { (set : Setting) (found : Found) (events : Events) (span : Span) → ShowsOpened set found events span
        → MayOpenWhole set found → (first_core set found).ended ≡ None
        → LeavesLists (open_whole set found) events span }
{}

/// So at each such moment whatever a stop leaves of a good peer's disk begins the list of the peer that leads its shard.
pub fn a_good_peers_disk_begins_its_leads_list()
    ensures { (set : Setting) (found : Found) (events : Events) (span : Span) → ShowsOpened set found events span
        → MayOpenWhole set found → (store : Whole) (moment : ℕ) → IsMomentOf set found events span store moment
        → (peer lead : ℕ) → status_of peer store.core ≡ Good → lead_of (home peer store.core) store.core ≡ Some lead
        → (image : Side → List ℕ) → IsLeft (disk_at (stands_of span.left) peer) moment image
        → (list : Numbered) → list_in image ≡ Some list → IsFrontOf peer list (store.lists lead) }
{}

/// Lists that disks of one shard may have at a time, up to entries of one stamp (a number with its view, which `rank_of`
/// tells of a list that ends there), are one: so it is of a store in step (`store`), and at each moment of a run of
/// whatever a stop leaves of disks that count (`disks`). Entries of one stamp are then equal, with all before them.
pub fn lists_of_one_stamp_are_one()
    ensures store { (c : Whole) (machines : ℕ → Copies Entry) → IsWholeInStep c machines → (peer other : ℕ)
        → IsPeer c.core.members.shape peer → home peer c.core ≡ home other c.core
        → (list more : Numbered) → IsFrontOf peer list (reach c peer) → IsFrontOf other more (reach c other)
        → rank_of list ≡ rank_of more → list ≡ more }
    ensures disks { (set : Setting) (found : Found) (events : Events) (span : Span) → ShowsOpened set found events span
        → MayOpenWhole set found → (store : Whole) (moment : ℕ) → IsMomentOf set found events span store moment
        → (peer other : ℕ) → IsPeer store.core.members.shape peer → home peer store.core ≡ home other store.core
        → counts store peer ≡ true → counts store other ≡ true
        → (image its_image : Side → List ℕ) → IsLeft (disk_at (stands_of span.left) peer) moment image
        → IsLeft (disk_at (stands_of span.left) other) moment its_image
        → (list more : Numbered) → list_in image ≡ Some list → list_in its_image ≡ Some more
        → (n m : ℕ) → rank_of (take n list) ≡ rank_of (take m more) → take n list ≡ take m more }
{}
