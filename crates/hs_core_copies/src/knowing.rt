//! What the core knows of a shard's copies.
ghost use Rattle.std.specs.Prelude.{◌≡◌, ℕ, List, None};
ghost use Rattle.hs_copies.specs.Lists.{Item};
ghost use Rattle.hs_copies.specs.Machine.{Copies};
ghost use Rattle.hs_core_words.specs.declared.event.Event.{Event};
ghost use Rattle.hs_core_words.specs.Opening.{Taken, open_core};
ghost use Rattle.hs_core_words.specs.State.{Core};
ghost use Rattle.hs_core_words.specs.Step.{step};
ghost use Rattle.hs_entry.specs.declared.entry.Entry.{Entry};
ghost use Rattle.hs_limits.specs.declared.limits.Limits.{Limits};
ghost use Rattle.hs_limits.specs.declared.shape.Shape.{Shape};
ghost use Rattle.hs_core_copies.specs.InStep.{IsInStep};
ghost use Rattle.hs_core_copies.specs.Knowing.{KnowsItsCopies};
ghost use Rattle.hs_core_copies.specs.Opening.{MayOpen};
ghost use Rattle.hs_core_copies.specs.Runs.{core_after};

/// In a core whose shard is in step what is known of each copy is within the lead's list, and what Copies and
/// Haves of the view tell under way is so; it stays so behind any event, and is so along a run from the opening on.
pub fn what_is_known_is_within_the_leads_list()
    ensures now { (shard : ℕ) (core : Core) (copies : Copies Entry) → IsInStep shard core copies → KnowsItsCopies shard core }
    ensures event { (shard : ℕ) (event : Event) (moment : ℕ) (core : Core) (copies : Copies Entry)
        → IsInStep shard core copies → (step event moment core).ended ≡ None → KnowsItsCopies shard (step event moment core) }
    ensures run { (shape : Shape) (limits : Limits) (taken : Taken) (moment shard : ℕ) (log : List (Item Entry))
        (events : List (Event × ℕ)) (core : Core) → MayOpen shape taken shard log
        → core ≡ core_after events (open_core shape limits taken moment) → core.ended ≡ None
        → KnowsItsCopies shard core }
{}
