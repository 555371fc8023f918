//! A settle of a run.
ghost use Rattle.std.specs.Prelude.{◌≡◌, ℕ, ◌<◌, List, [], None, true};
ghost use Rattle.hs_copies.specs.Lists.{Item};
ghost use Rattle.hs_core_copies.specs.Opening.{MayOpen};
ghost use Rattle.hs_core_words.specs.Opening.{Taken, open_core};
ghost use Rattle.hs_effects.specs.Logged.{MayBeginAll};
ghost use Rattle.hs_entry.specs.declared.entry.Entry.{Entry};
ghost use Rattle.hs_events.specs.Course.{steps};
ghost use Rattle.hs_events.specs.Due.{Events, is_walk, next_due};
ghost use Rattle.hs_limits.specs.declared.address.Address.{Address};
ghost use Rattle.hs_limits.specs.declared.limits.Limits.{Limits};
ghost use Rattle.hs_limits.specs.declared.shape.Shape.{Shape};
ghost use Rattle.hs_limits.specs.Shape.{IsShape};
ghost use Rattle.hs_quiet.specs.Settled.{HaveRounds, IsLeft};

/// In a run from opening on, whatever events came before, a settle that was gone past leaves nothing
/// (`a_settle_leaves_nothing`), and no operation without an answer. Premises: the core opened with the logs that were taken;
/// clients' lines were new, and writes have the name of their blocks; and along the settle each Round that is under way or kept
/// is for the store's shards, and the pool takes more than twice as many messages as there are shards.
pub fn a_settle_of_a_run_leaves_nothing()
    ensures { (name : List ℕ → Address) (shape : Shape) (limits : Limits) (taken : Taken) (moment : ℕ) (events settle : Events) (line : ℕ) → IsShape shape
        → ((shard : ℕ) → shard < shape.shards → (log : List (Item Entry)) × MayOpen shape taken shard log)
        → MayBeginAll name events (open_core shape limits taken moment) → MayBeginAll name settle (steps (open_core shape limits taken moment) events)
        → HaveRounds (steps (open_core shape limits taken moment) events) settle
        → is_walk next_due true line (steps (open_core shape limits taken moment) events) settle ≡ true
        → (steps (steps (open_core shape limits taken moment) events) settle).ended ≡ None
        → IsLeft (steps (steps (open_core shape limits taken moment) events) settle) × ((steps (steps (open_core shape limits taken moment) events) settle).operations ≡ []) }
{}
