//! When an entry takes effect.
ghost use Rattle.std.specs.Prelude.{◌≡◌, ℕ, List, None};
ghost use Rattle.hs_copies.specs.Lists.{Item};
ghost use Rattle.hs_copies.specs.Machine.{Copies};
ghost use Rattle.hs_core_words.specs.declared.event.Event.{Event};
ghost use Rattle.hs_core_words.specs.Looking.{front_of, group_of};
ghost use Rattle.hs_core_words.specs.Opening.{Taken, open_core};
ghost use Rattle.hs_core_words.specs.State.{Core};
ghost use Rattle.hs_core_words.specs.Step.{step};
ghost use Rattle.hs_entry.specs.declared.entry.Entry.{Entry};
ghost use Rattle.hs_limits.specs.declared.limits.Limits.{Limits};
ghost use Rattle.hs_limits.specs.declared.shape.Shape.{Shape};
ghost use Rattle.hs_replica.specs.Group.{commit_front};
ghost use Rattle.hs_core_copies.specs.InStep.{IsInStep};
ghost use Rattle.hs_core_copies.specs.Opening.{MayOpen};
ghost use Rattle.hs_core_copies.specs.Runs.{core_after};

/// Between any two events of a core that has not ended exactly that has taken effect of a shard which every good
/// peer is known to have sealed: so an entry takes effect in the event in which the front reaches its number,
/// and the front never falls.
pub fn an_entry_takes_effect_as_the_front_reaches_it()
    ensures event { (shard : ℕ) (event : Event) (moment : ℕ) (core : Core) (copies : Copies Entry)
        → IsInStep shard core copies → front_of shard core ≡ commit_front (group_of shard core)
        → (step event moment core).ended ≡ None
        → front_of shard (step event moment core) ≡ commit_front (group_of shard (step event moment core)) }
    ensures run { (shape : Shape) (limits : Limits) (taken : Taken) (moment shard : ℕ) (log : List (Item Entry))
        (events : List (Event × ℕ)) (core : Core) → MayOpen shape taken shard log
        → core ≡ core_after events (open_core shape limits taken moment) → core.ended ≡ None
        → front_of shard core ≡ commit_front (group_of shard core) }
{}
