//! Why a peer is not good, and a shard is lost.
ghost use Rattle.std.specs.Prelude.{◌≡◌, ◌⊎◌, ℕ, ◌*◌, ◌<◌, ◌++◌, None, Some};
ghost use Rattle.hs_core_words.specs.declared.event.Event.{Event};
ghost use Rattle.hs_core_words.specs.Looking.{home, shape_of, status_of};
ghost use Rattle.hs_core_words.specs.State.{Core};
ghost use Rattle.hs_core_words.specs.Step.{step};
ghost use Rattle.hs_desk.specs.declared.fault.CoreFault.TheVariants.{ShardLost};
ghost use Rattle.hs_events.specs.Course.{steps};
ghost use Rattle.hs_events.specs.Due.{Events};
ghost use Rattle.hs_limits.specs.declared.limits.PeerStatus.TheVariants.{Good, Joining};
ghost use Rattle.hs_quiet.specs.Keeping.{AreInStep};
ghost use Rattle.hs_quiet.specs.Settled.{IsLeft};
ghost use Rattle.hs_quiet.specs.Turning.{LastTurn, StaysAs};

/// Where an event loses a shard none of the shard's peers is good (`lost`). Along any events, also where the core ends with
/// one of them, a peer's status stays, or there is a last of them that changed it, by its cause: then it stays as that made it
/// (`last`). So a peer that is not good behind them was not as they began, or the last was its `fail` line or a report that its
/// disk has failed, or its `start` line; and behind that no settle left the core (`joins`). Premise of `last`: while the core
/// goes on each shard's copies are in step with the machine of hs_copies as the events begin.
pub fn a_lost_shard_has_its_cause()
    ensures lost { (event : Event) (moment : ℕ) (core : Core) (shard peer : ℕ) → core.ended ≡ None → (step event moment core).ended ≡ Some (ShardLost shard)
        → peer < (shape_of (step event moment core)).shards * (shape_of (step event moment core)).copies → home peer (step event moment core) ≡ shard
        → status_of peer (step event moment core) ≡ Good → ⊥ }
    ensures last { (peer : ℕ) (events : Events) (core : Core) → (core.ended ≡ None → AreInStep core) → StaysAs peer (status_of peer core) core events ⊎ LastTurn peer core events }
    ensures joins { (peer : ℕ) (before after : Events) (core : Core) → StaysAs peer Joining core (before ++ after) → IsLeft (steps core before) → ⊥ }
{}
