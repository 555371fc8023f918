//! Lineage: which list goes on from a good peer's.
ghost use Rattle.std.specs.Prelude.{◌≡◌, ◌≤◌, ℕ, List, length};
ghost use Rattle.hs_copies.specs.Invariant.{reach};
ghost use Rattle.hs_copies.specs.Lists.{IsAtMost, IsFront, Item, rank_by_stamps};
ghost use Rattle.hs_copies.specs.Machine.{Copies};
ghost use Rattle.hs_core_words.specs.Looking.{group_of, status_of};
ghost use Rattle.hs_core_words.specs.State.{Core};
ghost use Rattle.hs_entry.specs.declared.entry.Entry.{Entry};
ghost use Rattle.hs_limits.specs.declared.limits.PeerStatus.TheVariants.{Good};
ghost use Rattle.hs_replica.specs.Group.{copy_of};
ghost use Rattle.hs_core_copies.specs.InStep.{IsInStep, IsOf};

/// In a core whose shard is in step take any front of a good peer's list, and any front of any peer's list, with what the
/// machine has it that its last copying step may have added. If the rank of the second is no less, it begins with the first
/// (`lineage`); and it has all that took effect, where the first has what the good peer has sealed (`effects`).
pub fn a_list_of_greater_rank_goes_on_from_a_good_peers()
    ensures lineage { (shard : ℕ) (core : Core) (copies : Copies Entry) → IsInStep shard core copies
        → (peer other : ℕ) (front list : List (Item Entry))
        → IsOf core.members.shape shard peer → status_of peer core ≡ Good
        → IsFront front (copies.peers peer).list → IsFront list (reach (copies.peers other))
        → IsAtMost (rank_by_stamps front) (rank_by_stamps list) → IsFront front list }
    ensures effects { (shard : ℕ) (core : Core) (copies : Copies Entry) → IsInStep shard core copies
        → (peer other : ℕ) (front list : List (Item Entry))
        → IsOf core.members.shape shard peer → status_of peer core ≡ Good
        → IsFront front (copies.peers peer).list → (copy_of (group_of shard core) peer).sealed ≤ length front
        → IsFront list (reach (copies.peers other))
        → IsAtMost (rank_by_stamps front) (rank_by_stamps list) → IsFront copies.took list }
{}
