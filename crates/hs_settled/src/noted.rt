//! What each entry stands for.
ghost use Rattle.std.specs.Prelude.{◌≡◌, ◌*◌, ℕ, List, Option, None, All, length};
ghost use Rattle.hs_core_words.specs.Opening.{Taken, open_core};
ghost use Rattle.hs_core_words.specs.Looking.{shape_of};
ghost use Rattle.hs_core_words.specs.State.{Core};
ghost use Rattle.hs_core_words.specs.Step.{step};
ghost use Rattle.hs_core_words.specs.declared.event.Event.{Event};
ghost use Rattle.hs_limits.specs.declared.limits.Limits.{Limits};
ghost use Rattle.hs_limits.specs.declared.shape.Shape.{Shape};
ghost use Rattle.hs_model.specs.declared.command.Command.{Command};
ghost use Rattle.hs_settled.specs.Noted.{AllAreOwn, IsNoted, IsOwnEvent, StandsFor};
ghost use Rattle.hs_told.specs.InTurn.{after_all};

/// Each entry stands for what it may. One of a line tells a client's answer, or the refusal that
/// the line's command may have, and the line was begun; one of a shard, an enter or a sweep of a
/// shard that there is; any other, that a run is done, or that a peer is down, with a line begun.
/// So it is as a core opens with a flag for each peer, and behind each event of its line (`opened`,
/// `event`, `events`), in the journal and in what found it full.
pub fn each_entry_has_its_cause()
    ensures opened { (commands : ℕ → Option Command) (shape : Shape) (limits : Limits)
        (found : Taken) (moment : ℕ) → length found.good ≡ shape.shards * shape.copies →
        IsNoted commands (open_core shape limits found moment) }
    ensures event { (commands : ℕ → Option Command) (e : Event) (moment : ℕ) (core : Core)
        → IsNoted commands core → (core.ended ≡ None → IsOwnEvent commands core e) →
        IsNoted commands (step e moment core) }
    ensures events { (commands : ℕ → Option Command) (core : Core) (es : List (Event × ℕ))
        → IsNoted commands core → AllAreOwn commands core es →
        IsNoted commands (after_all core es) }
    ensures journal { (commands : ℕ → Option Command) (core : Core) → IsNoted commands core →
        All (StandsFor commands (shape_of core) core.limits core.progress.event_line) core.journal }
    ensures refused { (commands : ℕ → Option Command) (core : Core) → IsNoted commands core →
        All (StandsFor commands (shape_of core) core.limits core.progress.event_line) core.refused }
{}
