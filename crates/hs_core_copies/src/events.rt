//! Every event of the core is events of the machine.
ghost use Rattle.std.specs.Prelude.{◌≡◌, ℕ, List, None};
ghost use Rattle.hs_copies.specs.Machine.{Copies};
ghost use Rattle.hs_core_words.specs.declared.event.Event.{Event};
ghost use Rattle.hs_core_words.specs.State.{Core};
ghost use Rattle.hs_core_words.specs.Step.{step};
ghost use Rattle.hs_entry.specs.declared.entry.Entry.{Entry};
ghost use Rattle.hs_core_copies.specs.InStep.{GoesOn, IsInStep};
ghost use Rattle.hs_core_copies.specs.Runs.{KeepsEffects, core_after};

/// Where a shard of the core is in step with the machine of its copies, each event of the core is events of
/// that machine, of which each may come, until the core ends; so are any events, one after another. What took
/// effect never leaves what has taken effect, and the core never counts less of it.
pub fn every_event_is_the_machines()
    ensures event { (shard : ℕ) (event : Event) (moment : ℕ) (core : Core) (copies : Copies Entry)
        → IsInStep shard core copies → (step event moment core).ended ≡ None
        → GoesOn shard (step event moment core) copies }
    ensures events { (shard : ℕ) (events : List (Event × ℕ)) (core : Core) (copies : Copies Entry)
        → IsInStep shard core copies → (core_after events core).ended ≡ None
        → GoesOn shard (core_after events core) copies }
    ensures effects { (shard : ℕ) (old new : Core) (copies : Copies Entry) → IsInStep shard old copies
        → GoesOn shard new copies → KeepsEffects shard old new copies }
{}
