//! What is told of a script's lines is a legal run of the plain store, in the order of a journal.
ghost use Rattle.std.specs.Prelude.{◌≡◌, ℕ, Bool, true, List, [], None};
ghost use Rattle.hs_answered.specs.Standing.{store_with};
ghost use Rattle.hs_core_words.specs.State.{Core};
ghost use Rattle.hs_standing.specs.Answered.{AreAnswers, IsAskedAlong, IsReady, judging_by};
ghost use Rattle.hs_events.specs.Course.{steps};
ghost use Rattle.hs_events.specs.Due.{Events, MomentsRise, is_walk, next_due};
ghost use Rattle.hs_events.specs.Found.{Found, first_core, opens_with};
ghost use Rattle.hs_fold.specs.Runs.Facts.{Catalogue as Folded};
ghost use Rattle.hs_fold.specs.Shards.Setting.{Setting};
ghost use Rattle.hs_standing.specs.Copies.{AllKnowTheirCopies};
ghost use Rattle.hs_standing.specs.Held.{GivesAddresses};
ghost use Rattle.hs_journal.specs.Events.{client_op};
ghost use Rattle.hs_laws.specs.Valid.{IsValid};
ghost use Rattle.hs_standing.specs.Opens.{MayOpen};
ghost use Rattle.hs_limits.specs.declared.limits.Limits.{Limits};
ghost use Rattle.hs_standing.specs.Script.{AreLines, IsNext, Script, all_events};
ghost use Rattle.hs_model.specs.Store.{Store};
ghost use Rattle.hs_told.specs.InTurn.{told_of};

use crate::{
    a_line_asks_as_its_command, a_scripts_events_may_come, a_scripts_lines_are_new,
    each_event_is_told,
};
use hs_told::answers_stay_in_order;

/// A core opens ready, from the store of the folds with which it opened, where these are of a lawful
/// history (`opens`). What is due for opening leaves it ready, and the first line is the next one then
/// (`opening`). So do the events of lines one after another, also where the last one is cut short or the
/// core ends with one (`lines`): as long as it goes on it has its seats, what is known of copies is within
/// their lists, the root records and the Roots that wait are few, and reports tell the bytes of their
/// blocks. Of what is ready the journal, with what found it full, is a legal run of the plain store from the
/// store at entry, with its answers, in the order of a journal; so it is behind the lines (`answers`). For
/// any number of copies.
pub fn a_script_is_answered()
    ensures opens { (s : Script) (set : Setting) (found : Found) (cs : List Folded)
        → client_op (s.commands 0) ≡ None → GivesAddresses s.name
        → MayOpen (judging_by s set.limits) set.shape (opens_with set found) found.opened cs →
        IsReady (judging_by s set.limits) (store_with cs []) (first_core set found) }
    ensures opening { (s : Script) (limits : Limits) (start : Store) (core : Core) (done : Bool)
        (es : Events) (to : ℕ)
        → GivesAddresses s.name → IsValid start → IsReady (judging_by s limits) start core
        → client_op (s.commands 0) ≡ None → core.progress.event_line ≡ 0
        → MomentsRise core.moment es to → is_walk next_due done 0 core es ≡ true
        → AllKnowTheirCopies core es → IsAskedAlong (judging_by s limits) start core es →
        IsReady (judging_by s limits) start (steps core es)
        × IsNext s.commands (steps core es) 1 }
    ensures lines { (s : Script) (limits : Limits) (start : Store) (core : Core) (line : ℕ)
        (lines : List Events) (to : ℕ)
        → GivesAddresses s.name → IsValid start → IsReady (judging_by s limits) start core
        → IsNext s.commands core line
        → MomentsRise core.moment (all_events lines) to → AreLines s line core lines
        → AllKnowTheirCopies core (all_events lines)
        → IsAskedAlong (judging_by s limits) start core (all_events lines) →
        IsReady (judging_by s limits) start (steps core (all_events lines)) }
    ensures answers { (s : Script) (limits : Limits) (start : Store) (core : Core) (line : ℕ)
        (lines : List Events) (to : ℕ)
        → GivesAddresses s.name → IsValid start → IsReady (judging_by s limits) start core
        → IsNext s.commands core line
        → MomentsRise core.moment (all_events lines) to → AreLines s line core lines
        → AllKnowTheirCopies core (all_events lines)
        → IsAskedAlong (judging_by s limits) start core (all_events lines) →
        AreAnswers (judging_by s limits) start (told_of (steps core (all_events lines))) }
{
    a_line_asks_as_its_command();
    each_event_is_told();
    a_scripts_events_may_come();
    a_scripts_lines_are_new();
    answers_stay_in_order();
}
