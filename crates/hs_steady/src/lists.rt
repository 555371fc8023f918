//! The lists that a store of several copies shows.
ghost use Rattle.std.specs.Prelude.{◌≡◌, ℕ, ⊤, None, OnOk, Result};
ghost use Rattle.hs_cluster.specs.Cached.{AreCached};
ghost use Rattle.hs_cluster.specs.Kept.{LeavesLists, ShowsLists, Span};
ghost use Rattle.hs_cluster.specs.Opens.{OpensLists};
ghost use Rattle.hs_cluster.specs.PeerLogs.{KeepsPeers};
ghost use Rattle.hs_cluster.specs.declared.fault.ClusterFault.{ClusterFault};
ghost use Rattle.hs_copies.specs.Machine.{Copies};
ghost use Rattle.hs_entry.specs.declared.entry.Entry.{Entry};
ghost use Rattle.hs_events.specs.Course.{steps};
ghost use Rattle.hs_events.specs.Due.{Events};
ghost use Rattle.hs_events.specs.Found.{Found, first_core};
ghost use Rattle.hs_events.specs.Whole.{Whole, open_whole};
ghost use Rattle.hs_fold.specs.Shards.Setting.{Setting};
ghost use Rattle.hs_moments.specs.Machine.{runs};
ghost use Rattle.hs_moments.specs.WholeMachine.{whole_machine};
ghost use Rattle.hs_whole_copies.specs.Opening.{MayOpenWhole};
ghost use Rattle.hs_whole_copies.specs.Whole.{IsWholeInStep};

/// What a call of a cluster shows of lists (`ShowsLists`) it shows of a store in step that keeps its peers: at each moment
/// whatever a stop leaves of a disk that counts begins its peer's list, with all that is sealed of it; and behind the call
/// the store keeps its peers, and what is cached is of what took effect, as before it (`span`), and it is in step where its core goes on (`goes_on`). So it is from the opening on
/// (`opened`), of which hs_cluster says that it keeps the peers of whatever has the lists that its shards opened with.
pub fn a_store_in_step_shows_its_lists()
    ensures span { (c : Whole) (span : Span) (result : Result ⊤ ClusterFault) (events : Events) (machines : ℕ → Copies Entry)
        → IsWholeInStep c machines → c.core ≡ span.old.core → ShowsLists span result events
        → KeepsPeers c span.old.logs span.disks span.before → AreCached c span.old.cache
        → LeavesLists c events span
        × OnOk result (KeepsPeers (runs whole_machine c events) span.new.logs span.left span.now)
        × OnOk result (AreCached (runs whole_machine c events) span.new.cache) }
    ensures goes_on { (c : Whole) (events : Events) (machines : ℕ → Copies Entry) → IsWholeInStep c machines
        → (steps c.core events).ended ≡ None
        → (new : ℕ → Copies Entry) × IsWholeInStep (runs whole_machine c events) new }
    ensures opened { (set : Setting) (found : Found) (span : Span) (result : Result ⊤ ClusterFault) (events : Events)
        → MayOpenWhole set found → (first_core set found).ended ≡ None → span.old.core ≡ first_core set found
        → ((c : Whole) → OpensLists set found c → KeepsPeers c span.old.logs span.disks span.before)
        → span.old.cache ≡ None
        → ShowsLists span result events → LeavesLists (open_whole set found) events span
        × OnOk result (KeepsPeers (runs whole_machine (open_whole set found) events) span.new.logs span.left span.now)
        × OnOk result (AreCached (runs whole_machine (open_whole set found) events) span.new.cache) }
{}
