//! What becomes of each peer's list by an event.
ghost use Rattle.std.specs.Prelude.{◌≡◌, ℕ, List, None};
ghost use Rattle.hs_copies.specs.Machine.{Copies};
ghost use Rattle.hs_core_words.specs.declared.event.Event.{Event};
ghost use Rattle.hs_core_words.specs.State.{Core};
ghost use Rattle.hs_core_words.specs.Step.{step};
ghost use Rattle.hs_entry.specs.declared.entry.Entry.{Entry};
ghost use Rattle.hs_core_copies.specs.InStep.{IsInStep};
ghost use Rattle.hs_core_copies.specs.Lists.{AreHeld, ListsGo, lists_told};

/// Where a shard is in step, behind an event each peer's list in the machine is what the event's report tells of it,
/// or as it was before, with the entries behind it that its copy in the core has got and that wait to take effect.
pub fn each_list_is_what_is_told_and_what_waits()
    ensures { (shard : ℕ) (event : Event) (moment : ℕ) (core : Core) (copies : Copies Entry)
        → IsInStep shard core copies → AreHeld copies → (step event moment core).ended ≡ None
        → ListsGo shard (step event moment core) copies (lists_told shard event core copies) }
{}
