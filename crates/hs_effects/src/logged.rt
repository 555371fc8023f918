//! Operations and the entries that they asked for stay in order.
ghost use Rattle.std.specs.Prelude.{◌≡◌, ℕ, List, Some, slice_get};
ghost use Rattle.hs_core_words.specs.declared.event.Event.{Event};
ghost use Rattle.hs_core_words.specs.Looking.{group_of};
ghost use Rattle.hs_core_words.specs.Opening.{Taken, open_core};
ghost use Rattle.hs_core_words.specs.State.{Core};
ghost use Rattle.hs_core_words.specs.Step.{step};
ghost use Rattle.hs_effects.specs.Logged.{IsOrderly, MayBegin, MayBeginAll, steps};
ghost use Rattle.hs_effects.specs.Taking.{IsNamed};
ghost use Rattle.hs_entry.specs.declared.entry.Entry.{Entry};
ghost use Rattle.hs_limits.specs.declared.address.Address.{Address};
ghost use Rattle.hs_limits.specs.declared.limits.Limits.{Limits};
ghost use Rattle.hs_limits.specs.declared.shape.Shape.{Shape};

/// As the core opens, and behind every event, whatever the number of copies: no line and no session
/// has two operations without an answer, each is of an open session, each entry that has not taken
/// effect and that a client asked for is what its operation asks for and waits for, and there is
/// room for the Blocks and Roots that have not taken effect. So the address that the core finds for
/// an entry is the name of its block (`named`). Of a client's line it is asked that it is new and
/// that a write has the name of its block.
pub fn operations_wait_for_their_entries()
    ensures opened { (name : List ℕ → Address) (shape : Shape) (limits : Limits) (found : Taken)
        (moment : ℕ) →
        IsOrderly name (open_core shape limits found moment) }
    ensures event { (name : List ℕ → Address) (core : Core) (event : Event) (moment : ℕ)
        → IsOrderly name core → MayBegin name event core →
        IsOrderly name (step event moment core) }
    ensures events { (name : List ℕ → Address) (core : Core) (events : List (Event × ℕ))
        → IsOrderly name core → MayBeginAll name events core →
        IsOrderly name (steps core events) }
    ensures named { (name : List ℕ → Address) (core : Core) (shard place : ℕ) (entry : Entry)
        → IsOrderly name core → slice_get (group_of shard core).waiting place ≡ Some entry →
        IsNamed name entry core }
{}
