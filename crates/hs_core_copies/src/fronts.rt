//! What is so of good peers between any two events.
ghost use Rattle.std.specs.Prelude.{◌≡◌, ◌≤◌, ℕ, Some};
ghost use Rattle.hs_copies.specs.Lists.{IsFront};
ghost use Rattle.hs_copies.specs.Machine.{Copies};
ghost use Rattle.hs_core_words.specs.Looking.{front_of, group_of, lead_of, status_of};
ghost use Rattle.hs_core_words.specs.State.{Core};
ghost use Rattle.hs_entry.specs.declared.entry.Entry.{Entry};
ghost use Rattle.hs_limits.specs.declared.limits.PeerStatus.TheVariants.{Good};
ghost use Rattle.hs_replica.specs.Group.{copy_of, length_of};
ghost use Rattle.hs_core_copies.specs.InStep.{IsInStep, IsOf};

/// In a core whose shard is in step the stamps of each good peer's list are a front of those of the lead's,
/// and the list is no shorter than what took effect.
pub fn good_stamps_are_fronts_of_the_leads()
    ensures stamps { (shard : ℕ) (core : Core) (copies : Copies Entry) → IsInStep shard core copies
        → (peer lead : ℕ) → IsOf core.members.shape shard peer → status_of peer core ≡ Good
        → lead_of shard core ≡ Some lead
        → IsFront (copy_of (group_of shard core) peer).stamps (copy_of (group_of shard core) lead).stamps }
    ensures effects { (shard : ℕ) (core : Core) (copies : Copies Entry) → IsInStep shard core copies
        → (peer : ℕ) → IsOf core.members.shape shard peer → status_of peer core ≡ Good
        → front_of shard core ≤ length_of (group_of shard core) peer }
{}
