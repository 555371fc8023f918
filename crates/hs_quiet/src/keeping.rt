//! For whom messages are, how far joining peers are, and what is known of leads.
ghost use Rattle.std.specs.Prelude.{◌≡◌, ◌<◌, ℕ, List, None};
ghost use Rattle.hs_copies.specs.Lists.{Item};
ghost use Rattle.hs_core_copies.specs.Opening.{MayOpen};
ghost use Rattle.hs_core_words.specs.declared.event.Event.{Event};
ghost use Rattle.hs_core_words.specs.Opening.{Taken, open_core};
ghost use Rattle.hs_core_words.specs.State.{Core};
ghost use Rattle.hs_core_words.specs.Step.{step};
ghost use Rattle.hs_entry.specs.declared.entry.Entry.{Entry};
ghost use Rattle.hs_events.specs.Course.{steps};
ghost use Rattle.hs_events.specs.Due.{Events};
ghost use Rattle.hs_limits.specs.declared.limits.Limits.{Limits};
ghost use Rattle.hs_limits.specs.declared.shape.Shape.{Shape};
ghost use Rattle.hs_quiet.specs.Keeping.{AreInStep, KeepsUp};

/// Behind any event, until the core ends, Copies and Haves that are under way are for good peers; a joining peer has
/// begun, and what it follows is longer than what it has, for else it were good; and of each lead it is known what it
/// has sealed, or it has more to seal. Premises: so it was before, and each shard's copies were in step with the machine
/// of hs_copies (`stays`), as they are then again (`step`). So it is as the core opens with the logs that were taken, where
/// it does not end at once (`opened`), and behind any number of events (`events`).
pub fn copies_keep_up()
    ensures opened { (shape : Shape) (limits : Limits) (taken : Taken) (moment : ℕ) → 0 < shape.shards
        → ((shard : ℕ) → shard < shape.shards → (log : List (Item Entry)) × MayOpen shape taken shard log) → (open_core shape limits taken moment).ended ≡ None
        → AreInStep (open_core shape limits taken moment) × KeepsUp (open_core shape limits taken moment) }
    ensures stays { (event : Event) (moment : ℕ) (core : Core) → AreInStep core → KeepsUp core
        → (step event moment core).ended ≡ None → KeepsUp (step event moment core) }
    ensures step { (event : Event) (moment : ℕ) (core : Core) → AreInStep core
        → (step event moment core).ended ≡ None → AreInStep (step event moment core) }
    ensures events { (events : Events) (core : Core) → AreInStep core → KeepsUp core → (steps core events).ended ≡ None
        → AreInStep (steps core events) × KeepsUp (steps core events) }
{}
