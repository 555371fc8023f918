//! Each operation without an answer waits for something that is there.
ghost use Rattle.std.specs.Prelude.{◌≡◌, ◌<◌, ℕ, List, None, Some};
ghost use Rattle.hs_awaiting.specs.declared.waiting.Waiting.{Waiting};
ghost use Rattle.hs_core_words.specs.declared.event.Event.{Event};
ghost use Rattle.hs_core_words.specs.Looking.{operation_of, shape_of};
ghost use Rattle.hs_core_words.specs.Opening.{Taken, open_core};
ghost use Rattle.hs_core_words.specs.State.{Core};
ghost use Rattle.hs_core_words.specs.Step.{step};
ghost use Rattle.hs_effects.specs.Logged.{IsOrderly, MayBegin, MayBeginAll};
ghost use Rattle.hs_events.specs.Course.{steps};
ghost use Rattle.hs_events.specs.Due.{Events};
ghost use Rattle.hs_limits.specs.declared.address.Address.{Address};
ghost use Rattle.hs_limits.specs.declared.limits.Limits.{Limits};
ghost use Rattle.hs_limits.specs.declared.shape.Shape.{Shape};
ghost use Rattle.hs_limits.specs.Shape.{IsShape};
ghost use Rattle.hs_quiet.specs.Causes.{AreCaused, HasCause, asker_of};
ghost use Rattle.hs_quiet.specs.Keeping.{AreInStep};

/// Each operation without an answer waits for a View, a Block of its address, an entry that takes its room, or its own
/// entry, which stands in its shard's list, or for bytes, whose Read is among the jobs of a good peer of its shard
/// (`caused`). So it is as the core opens, where it does not end at once (`opened`), and behind every event until the core ends, where a client's line is new and a write has the name of
/// its block (`event`, `events`), with any number of copies: where a view begins, the operations that it restarts have their causes
/// again. Premises: the shape is valid, each shard's copies are in step with the machine of hs_copies, and operations are
/// in order (`IsOrderly`), as they are then again.
pub fn each_operation_waits_for_what_is_there()
    ensures opened { (name : List ℕ → Address) (shape : Shape) (limits : Limits) (taken : Taken) (moment : ℕ) → (open_core shape limits taken moment).ended ≡ None
        → IsOrderly name (open_core shape limits taken moment) × AreCaused name (open_core shape limits taken moment) }
    ensures event { (name : List ℕ → Address) (core : Core) (event : Event) (moment : ℕ) → AreInStep core → IsShape core.members.shape → IsOrderly name core → AreCaused name core
        → MayBegin name event core → (step event moment core).ended ≡ None → IsOrderly name (step event moment core) × AreCaused name (step event moment core) }
    ensures events { (name : List ℕ → Address) (core : Core) (events : Events) → AreInStep core → IsShape core.members.shape → IsOrderly name core → AreCaused name core
        → MayBeginAll name events core → (steps core events).ended ≡ None → IsOrderly name (steps core events) × AreCaused name (steps core events) }
    ensures caused { (name : List ℕ → Address) (core : Core) (line : ℕ) (w : Waiting) → IsShape core.members.shape → IsOrderly name core → AreCaused name core
        → operation_of line core ≡ Some w → (w.shard < (shape_of core).shards) × HasCause name core (asker_of line w) w.wait }
{}
