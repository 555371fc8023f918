//! Whatever is open of a core goes on.
ghost use Rattle.std.specs.Prelude.{◌≡◌, ℕ, List, None, length};
ghost use Rattle.hs_core_words.specs.declared.event.Event.{Event};
ghost use Rattle.hs_core_words.specs.State.{Core};
ghost use Rattle.hs_core_words.specs.Step.{step};
ghost use Rattle.hs_effects.specs.Logged.{MayBegin, MayBeginAll};
ghost use Rattle.hs_events.specs.Course.{steps};
ghost use Rattle.hs_events.specs.Due.{Events};
ghost use Rattle.hs_events.specs.Found.{Found, first_core};
ghost use Rattle.hs_events.specs.Taken.{peer_count};
ghost use Rattle.hs_fold.specs.Shards.Setting.{Setting};
ghost use Rattle.hs_limits.specs.declared.address.Address.{Address};
ghost use Rattle.hs_settled.specs.Moving.{IsMoving};
ghost use Rattle.hs_settled.specs.Opened.{OpensRanked};

/// Each operation without an answer waits, until the core ends, for a View, a Block of its address, an
/// entry that takes its room, or its own entry, which stands in its shard's list, or for bytes, whose
/// Read is among its peer's jobs; and each shard is in step with its copies. So it is as the core opens
/// (`opened`), and behind every event (`event`) and any number of them (`events`), where a client's line
/// is new and a write has the name of its block.
pub fn each_operation_goes_on()
    ensures opened { (name : List ℕ → Address) (set : Setting) (found : Found)
        → length found.good ≡ peer_count set.shape → OpensRanked set found
        → (first_core set found).ended ≡ None → IsMoving name (first_core set found) }
    ensures event { (name : List ℕ → Address) (core : Core) (event : Event) (moment : ℕ)
        → IsMoving name core → MayBegin name event core → (step event moment core).ended ≡ None →
        IsMoving name (step event moment core) }
    ensures events { (name : List ℕ → Address) (core : Core) (events : Events)
        → IsMoving name core → MayBeginAll name events core → (steps core events).ended ≡ None →
        IsMoving name (steps core events) }
{}
