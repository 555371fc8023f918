//! Lineage: which list of a disk goes on from a good peer's.
ghost use Rattle.std.specs.Prelude.{◌≡◌, ◌≤◌, ℕ, suc, List, Some, false, length, slice_get, take};
ghost use Rattle.hs_copies.specs.Lists.{IsAtMost, IsFront, Item, rank_by_stamps};
ghost use Rattle.hs_copies.specs.Machine.{Copies};
ghost use Rattle.hs_core_copies.specs.InStep.{IsOf};
ghost use Rattle.hs_core_words.specs.Looking.{front_of, group_of, status_of};
ghost use Rattle.hs_entry.specs.Entries.{IsPrefix, rank_of};
ghost use Rattle.hs_entry.specs.declared.entry.Entry.{Entry};
ghost use Rattle.hs_events.specs.Whole.{Whole, reach};
ghost use Rattle.hs_fold.specs.Opened.{outranks};
ghost use Rattle.hs_fold.specs.Shards.Setting.{Numbered};
ghost use Rattle.hs_limits.specs.declared.limits.PeerStatus.TheVariants.{Good};
ghost use Rattle.hs_replica.specs.Group.{copy_of};
ghost use Rattle.hs_whole_copies.specs.Whole.{IsShardInStep, longest};

/// Take any front of a good peer's list, and any front of the longest list that the disk of any peer of the shard
/// may have. If the rank of the second is no less, it begins with the first (`lineage`); and it has all that took
/// effect, where the first has what the good peer has sealed (`effects`). So it is by the ranks that entries tell, by
/// which a store chooses as it opens, where the first has all that took effect (`told`). Two such disks whose lists
/// have entries with one stamp at one number have the same up to it (`common`).
pub fn a_disks_list_of_greater_rank_goes_on_from_a_good_peers()
    ensures lineage { (shard : ℕ) (c : Whole) (copies : Copies Entry) → IsShardInStep shard c copies
        → (peer other : ℕ) (front list : List (Item Entry))
        → IsOf c.core.members.shape shard peer → status_of peer c.core ≡ Good
        → IsOf c.core.members.shape shard other
        → IsFront front (copies.peers peer).list → IsFront list (longest other c.core copies)
        → IsAtMost (rank_by_stamps front) (rank_by_stamps list) → IsFront front list }
    ensures effects { (shard : ℕ) (c : Whole) (copies : Copies Entry) → IsShardInStep shard c copies
        → (peer other : ℕ) (front list : List (Item Entry))
        → IsOf c.core.members.shape shard peer → status_of peer c.core ≡ Good
        → IsOf c.core.members.shape shard other
        → IsFront front (copies.peers peer).list
        → (copy_of (group_of shard c.core) peer).sealed ≤ length front
        → IsFront list (longest other c.core copies)
        → IsAtMost (rank_by_stamps front) (rank_by_stamps list) → IsFront copies.took list }
    ensures told { (shard : ℕ) (c : Whole) (copies : Copies Entry) → IsShardInStep shard c copies
        → (peer other : ℕ) (front list : Numbered)
        → IsOf c.core.members.shape shard peer → status_of peer c.core ≡ Good
        → IsOf c.core.members.shape shard other
        → IsPrefix front (c.lists peer) → front_of shard c.core ≤ length front
        → IsPrefix list (reach c other)
        → outranks (rank_of front) (rank_of list) ≡ false → IsPrefix front list }
    ensures common { (shard : ℕ) (c : Whole) (copies : Copies Entry) → IsShardInStep shard c copies
        → (peer other n : ℕ) (x y : Item Entry)
        → IsOf c.core.members.shape shard peer → IsOf c.core.members.shape shard other
        → slice_get (longest peer c.core copies) n ≡ Some x
        → slice_get (longest other c.core copies) n ≡ Some y → x.view ≡ y.view
        → take (suc n) (longest peer c.core copies) ≡ take (suc n) (longest other c.core copies) }
{}
