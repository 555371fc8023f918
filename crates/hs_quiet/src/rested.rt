//! What is left of copies where no peer has a job.
ghost use Rattle.std.specs.Prelude.{◌≡◌, ◌≤◌, ℕ, ◌<◌, List, [], None};
ghost use Rattle.hs_core_words.specs.Looking.{first_job, front_of, group_of, home, known_of, sealed_of, shape_of, status_of};
ghost use Rattle.hs_core_words.specs.State.{Core};
ghost use Rattle.hs_limits.specs.declared.limits.PeerStatus.TheVariants.{Good, Joining};
ghost use Rattle.hs_quiet.specs.Keeping.{AreInStep, KeepsUp};
ghost use Rattle.hs_replica.specs.Group.{commit_front, copy_of, last_number, lead, length_of};

/// Where no peer has a job: each good peer has sealed its list (`sealed`), of each lead that is known (`leads`), and no
/// peer is joining (`joins`). Where more than that all good peers of a shard are known to have its list, none of its
/// entries waits (`waiting`). Premises: each shard's copies are in step with the machine of hs_copies; what stays so of
/// them is so (`copies_keep_up`); and for `waiting`, as far as every good peer is known to have sealed, entries took
/// effect.
pub fn where_no_peer_has_a_job_all_is_sealed()
    ensures sealed { (core : Core) → AreInStep core → ((peer : ℕ) → first_job peer core ≡ None) → (peer : ℕ) → status_of peer core ≡ Good
        → sealed_of peer core ≡ length_of (group_of (home peer core) core) peer }
    ensures leads { (core : Core) → AreInStep core → KeepsUp core → ((peer : ℕ) → first_job peer core ≡ None) → (shard peer : ℕ) → shard < (shape_of core).shards
        → lead (group_of shard core) ≡ Some peer → (copy_of (group_of shard core) peer).known ≡ last_number (group_of shard core) }
    ensures joins { (core : Core) → AreInStep core → KeepsUp core → ((peer : ℕ) → first_job peer core ≡ None) → (peer : ℕ) → status_of peer core ≡ Joining → ⊥ }
    ensures waiting { (core : Core) → AreInStep core → KeepsUp core → ((peer : ℕ) → first_job peer core ≡ None) → (shard : ℕ) → shard < (shape_of core).shards
        → front_of shard core ≡ commit_front (group_of shard core)
        → ((peer : ℕ) → home peer core ≡ shard → status_of peer core ≡ Good → last_number (group_of shard core) ≤ (copy_of (group_of shard core) peer).known)
        → (group_of shard core).waiting ≡ [] }
{}
