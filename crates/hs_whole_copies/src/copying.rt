//! What a copying step copies.
ghost use Rattle.std.specs.Prelude.{◌≡◌, ℕ, Some};
ghost use Rattle.hs_copies.specs.Machine.{Copies};
ghost use Rattle.hs_core_copies.specs.InStep.{IsOf};
ghost use Rattle.hs_core_words.specs.Looking.{first_job};
ghost use Rattle.hs_desk.specs.declared.job.Job.TheVariants as job;
ghost use Rattle.hs_entry.specs.declared.entry.Entry.{Entry};
ghost use Rattle.hs_events.specs.Whole.{Whole};
ghost use Rattle.hs_whole_copies.specs.Copying.{IsNextCopied};
ghost use Rattle.hs_whole_copies.specs.Whole.{IsShardInStep};

/// Where the first job of a peer is to copy an entry from another, that other leads the shard, and the entry is the
/// next of its list, sealed there; and it is what the peer's disk may have behind the peer's own list, no more.
pub fn a_copying_step_adds_the_next_of_the_leads()
    ensures { (shard : ℕ) (c : Whole) (copies : Copies Entry) (peer from number : ℕ)
        → IsShardInStep shard c copies → IsOf c.core.members.shape shard peer
        → first_job peer c.core ≡ Some (job.Copy from number) → IsNextCopied c peer from number }
{}
