//! The events of lines may come.
ghost use Rattle.std.specs.Prelude.{◌≡◌, ℕ, Bool, true, List, Option, None};
ghost use Rattle.hs_core_words.specs.State.{Core};
ghost use Rattle.hs_events.specs.Commands.{AreOfLine, LineAt};
ghost use Rattle.hs_events.specs.Course.{steps};
ghost use Rattle.hs_events.specs.Due.{Events, MomentsRise, is_walk, next_due};
ghost use Rattle.hs_journal.specs.Events.{client_op};
ghost use Rattle.hs_limits.specs.declared.address.Address.{Address};
ghost use Rattle.hs_standing.specs.Script.{AreLines, IsNext, Script, all_events};
ghost use Rattle.hs_model.specs.declared.command.Command.{Command};
ghost use Rattle.hs_told.specs.InTurn.{AllMayCome};

/// Where moments never fall, what is due for opening may come, each event in turn, and the first
/// line is the next one then; so may the events of a line that is the next one, and those of lines
/// one after another, also where the last one is cut short.
pub fn a_scripts_events_may_come()
    ensures opening { (commands : ℕ → Option Command) (whole : Bool) (core : Core)
        (es : Events) (to : ℕ)
        → client_op (commands 0) ≡ None → core.progress.event_line ≡ 0
        → MomentsRise core.moment es to → is_walk next_due whole 0 core es ≡ true →
        AllMayCome commands core es }
    ensures first { (commands : ℕ → Option Command) (whole : Bool) (core : Core) (es : Events)
        → client_op (commands 0) ≡ None → core.progress.event_line ≡ 0
        → is_walk next_due whole 0 core es ≡ true → IsNext commands (steps core es) 1 }
    ensures line { (name : List ℕ → Address) (commands : ℕ → Option Command) (at : LineAt)
        (to : ℕ)
        → IsNext commands at.core at.line → MomentsRise at.core.moment at.events to
        → AreOfLine name at (commands at.line) →
        AllMayCome commands at.core at.events }
    ensures lines { (s : Script) (line : ℕ) (core : Core) (lines : List Events) (to : ℕ)
        → IsNext s.commands core line → MomentsRise core.moment (all_events lines) to
        → AreLines s line core lines →
        AllMayCome s.commands core (all_events lines) }
{}
