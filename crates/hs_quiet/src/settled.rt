//! What a settle leaves.
ghost use Rattle.std.specs.Prelude.{◌≡◌, ℕ, ◌*◌, ◌++◌, ◌<◌, List, [], None, true};
ghost use Rattle.hs_answered.specs.Telling.{Judging};
ghost use Rattle.hs_core_words.specs.Looking.{front_of, group_of, home, known_of, sealed_of, shape_of, status_of};
ghost use Rattle.hs_core_words.specs.State.{Core};
ghost use Rattle.hs_effects.specs.Logged.{IsOrderly};
ghost use Rattle.hs_events.specs.Course.{steps};
ghost use Rattle.hs_events.specs.Due.{Events, is_walk, next_due};
ghost use Rattle.hs_fold.specs.Runs.Facts.{Catalogue as Folded};
ghost use Rattle.hs_limits.specs.declared.address.Address.{Address};
ghost use Rattle.hs_limits.specs.declared.limits.PeerStatus.TheVariants.{Good};
ghost use Rattle.hs_limits.specs.Shape.{IsShape};
ghost use Rattle.hs_model.specs.Store.{Store};
ghost use Rattle.hs_quiet.specs.Causes.{AreCaused};
ghost use Rattle.hs_quiet.specs.Keeping.{AreInStep, KeepsUp};
ghost use Rattle.hs_quiet.specs.Settled.{HasRounds, HaveRounds, IsLeft};
ghost use Rattle.hs_replica.specs.Group.{commit_front, last_number};
ghost use Rattle.hs_standing.specs.Legal.{IsStanding};

/// Where the events of a settle, of each its line, were due one after another and nothing is due any more, and the core
/// has not ended: no peer has a job, and no message is under way; every entry of every shard has taken effect; no peer is
/// joining; and no work is open, or no lead would propose an Enter, and its last two rounds have come to all shards (`left`).
/// Then each good peer has sealed the lead's whole list, and is known to have (`level`), and no operation is without an answer
/// (`operations`). Premises: each shard's copies were in step with the machine of
/// hs_copies as the settle began; what stays so of them was so (`copies_keep_up`); as far as every good peer was known to have
/// sealed, entries had taken effect; and along the settle each Round that is under way or kept is for the store's shards, and
/// the pool takes more than twice as many messages as there are shards, as it is where a core stands (`rounds`), so along events where it stands behind each front of them (`along`). For `operations`: each operation has its cause
/// (`each_operation_waits_for_what_is_there`).
pub fn a_settle_leaves_nothing()
    ensures left { (line : ℕ) (core : Core) (events : Events) → AreInStep core → KeepsUp core
        → ((shard : ℕ) → shard < (shape_of core).shards → front_of shard core ≡ commit_front (group_of shard core)) → HaveRounds core events
        → is_walk next_due true line core events ≡ true → (steps core events).ended ≡ None → IsLeft (steps core events) }
    ensures level { (core : Core) → AreInStep core → IsLeft core → (peer : ℕ) → status_of peer core ≡ Good
        → (known_of peer core ≡ last_number (group_of (home peer core) core)) × (sealed_of peer core ≡ last_number (group_of (home peer core) core)) }
    ensures operations { (name : List ℕ → Address) (core : Core) → IsLeft core → IsShape core.members.shape → IsOrderly name core → AreCaused name core → core.operations ≡ [] }
    ensures rounds { (by : Judging) (start : Store) (core : Core) (cs : List Folded) → IsStanding by start core cs → 2 * (shape_of core).shards < core.pool.limit → HasRounds core }
    ensures along { (by : Judging) (start : Store) (core : Core) (events : Events)
        → ((before after : Events) → events ≡ before ++ after → (cs : List Folded) × IsStanding by start (steps core before) cs × (2 * (shape_of (steps core before)).shards < (steps core before).pool.limit))
        → HaveRounds core events }
{}
