//! The lines of clients are new.
ghost use Rattle.std.specs.Prelude.{◌≡◌, ℕ, ◌<◌, Bool, true, List, Option};
ghost use Rattle.hs_core_words.specs.State.{Core};
ghost use Rattle.hs_effects.specs.Logged.{MayBeginAll};
ghost use Rattle.hs_events.specs.Commands.{AreOfLine, LineAt};
ghost use Rattle.hs_events.specs.Due.{Events, MomentsRise, is_walk, next_due};
ghost use Rattle.hs_limits.specs.declared.address.Address.{Address};
ghost use Rattle.hs_standing.specs.Script.{AreLines, IsNext, Script, all_events};
ghost use Rattle.hs_model.specs.declared.command.Command.{Command};
ghost use Rattle.hs_told.specs.InTurn.{IsInTurn};

use hs_told::answers_stay_in_order;

/// Of the events that are due for opening none is a client's line. A client's line above the last
/// line of a core in turn is new to it, and a write comes with the address of its block; so it is
/// with lines one after another.
pub fn a_scripts_lines_are_new()
    ensures opening { (name : List ℕ → Address) (whole : Bool) (core : Core) (es : Events)
        → is_walk next_due whole 0 core es ≡ true → MayBeginAll name es core }
    ensures line { (name : List ℕ → Address) (commands : ℕ → Option Command) (at : LineAt)
        → IsInTurn commands at.core → at.core.progress.event_line < at.line
        → AreOfLine name at (commands at.line) →
        MayBeginAll name at.events at.core }
    ensures lines { (s : Script) (line : ℕ) (core : Core) (lines : List Events) (to : ℕ)
        → IsInTurn s.commands core → IsNext s.commands core line
        → MomentsRise core.moment (all_events lines) to → AreLines s line core lines →
        MayBeginAll s.name (all_events lines) core }
{
    answers_stay_in_order();
}
