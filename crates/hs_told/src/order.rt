//! In which order the core answers.
ghost use Rattle.std.specs.Prelude.{◌≡◌, ◌++◌, ℕ, List, [], Option, None};
ghost use Rattle.hs_core_words.specs.declared.event.Event.{Event};
ghost use Rattle.hs_core_words.specs.Opening.{Taken, open_core};
ghost use Rattle.hs_core_words.specs.State.{Core};
ghost use Rattle.hs_core_words.specs.Step.{step};
ghost use Rattle.hs_journal.specs.Events.{client_op};
ghost use Rattle.hs_journal.specs.Order.{IsOrdered};
ghost use Rattle.hs_limits.specs.declared.limits.Limits.{Limits};
ghost use Rattle.hs_limits.specs.declared.shape.Shape.{Shape};
ghost use Rattle.hs_model.specs.declared.command.Command.{Command};
ghost use Rattle.hs_told.specs.InTurn.{AllMayCome, IsInTurn, MayCome, after_all, told_of};

/// A core that opens is in turn, and every event that may come keeps the order of answers: beside an
/// entry of a session's line at most one earlier line of the session is without its answer, and the
/// line is refused as busy with it, and with nothing else; lines answered in their own event, and
/// those refused as busy, have their entries before those of all later lines; no line has two; and
/// moments never fall. So do any number of events, one after another, also where the last one finds
/// the journal full.
pub fn answers_stay_in_order()
    ensures opens { (commands : ℕ → Option Command) (shape : Shape) (limits : Limits)
        (taken : Taken) (moment : ℕ)
        → client_op (commands 0) ≡ None →
        IsInTurn commands (open_core shape limits taken moment) }
    ensures event { (commands : ℕ → Option Command) (core : Core) (e : Event) (moment : ℕ)
        → IsInTurn commands core → MayCome commands core e moment →
        IsInTurn commands (step e moment core) }
    ensures events { (commands : ℕ → Option Command) (core : Core) (es : List (Event × ℕ))
        → IsInTurn commands core → AllMayCome commands core es →
        IsInTurn commands (after_all core es) }
    ensures journal { (commands : ℕ → Option Command) (core : Core)
        → IsInTurn commands core → IsOrdered commands core.journal }
    ensures with_refused { (commands : ℕ → Option Command) (core : Core)
        → IsInTurn commands core → IsOrdered commands (core.journal ++ core.refused) }
{}
