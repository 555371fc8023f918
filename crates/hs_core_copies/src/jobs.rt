//! Which jobs a peer has.
ghost use Rattle.std.specs.List.{enumerate_from};
ghost use Rattle.std.specs.Prelude.{◌≡◌, ℕ, Some, drop, map};
ghost use Rattle.hs_copies.specs.Machine.{Copies};
ghost use Rattle.hs_core_words.specs.Looking.{first_job, group_of, status_of};
ghost use Rattle.hs_core_words.specs.State.{Core};
ghost use Rattle.hs_desk.specs.declared.job.Job.{Job};
ghost use Rattle.hs_entry.specs.declared.entry.Entry.{Entry};
ghost use Rattle.hs_limits.specs.declared.limits.PeerStatus.TheVariants.{Good};
ghost use Rattle.hs_replica.specs.Group.{copy_of};
ghost use Rattle.hs_core_copies.specs.InStep.{IsInStep, IsOf};
ghost use Rattle.hs_core_copies.specs.Jobs.{HasItsJobs, unsealed};
ghost use Rattle.hs_core_copies.specs.Next.{IsNextFor};

/// In a core whose shard is in step the jobs of a good peer are those of the entries of its list, behind what it
/// has sealed: each is appended and then sealed, with Reads before or behind. Another peer has none in its queue
/// (`jobs`). These entries are the rest of its list in the machine, with their numbers (`entries`).
pub fn the_jobs_are_those_of_what_is_unsealed()
    ensures jobs { (shard : ℕ) (core : Core) (copies : Copies Entry) → IsInStep shard core copies
        → (peer : ℕ) → IsOf core.members.shape shard peer → HasItsJobs shard core peer }
    ensures entries { (shard : ℕ) (core : Core) (copies : Copies Entry) → IsInStep shard core copies
        → (peer : ℕ) → IsOf core.members.shape shard peer → status_of peer core ≡ Good
        → unsealed peer (group_of shard core)
        ≡ drop (copy_of (group_of shard core) peer).sealed (enumerate_from 1 (map (λ x. x.what) (copies.peers peer).list)) }
{}

/// The first job of any peer is the next that is to be done: to append or to seal the first entry that it has not
/// sealed; of a joining peer to be emptied, or to copy the entry behind those that it has, which the lead has sealed;
/// of a Read only that the peer is good.
pub fn the_first_job_is_the_next()
    ensures { (shard peer : ℕ) (core : Core) (copies : Copies Entry) (job : Job) → IsInStep shard core copies
        → IsOf core.members.shape shard peer → first_job peer core ≡ Some job
        → IsNextFor shard core copies peer job }
{}
