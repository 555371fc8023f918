//! Reports tell the bytes of their blocks.
ghost use Rattle.std.specs.Prelude.{◌≡◌, ◌++◌, ℕ, Bool, true, List};
ghost use Rattle.hs_standing.specs.Answered.{KeepsRecordRoom, TellTheirBlocks};
ghost use Rattle.hs_cluster.specs.Kept.{AreTold, IsTold};
ghost use Rattle.hs_core_words.specs.declared.event.Event.{Event};
ghost use Rattle.hs_events.specs.Asked.{report_in};
ghost use Rattle.hs_events.specs.Course.{steps};
ghost use Rattle.hs_events.specs.Due.{Events, MomentsRise, is_walk, next_due};
ghost use Rattle.hs_events.specs.Found.{Found, first_core};
ghost use Rattle.hs_events.specs.Whole.{Whole, open_whole};
ghost use Rattle.hs_standing.specs.Script.{AreLines, all_events};
ghost use Rattle.hs_clauses.specs.Along.{AllCome};
ghost use Rattle.hs_clauses.specs.Run.{IsReading, ReadsWhatIsSealed, script_of};
ghost use Rattle.hs_standing.specs.Coming.{ReportsBlocks};
ghost use Rattle.hs_standing.specs.Run.{RunBegins};
ghost use Rattle.hs_standing.specs.Standing.{judging_of};
ghost use Rattle.hs_standing.specs.Start.{Start};

use hs_answered::{
    a_read_is_the_judges, a_step_that_answers_is_the_judges, a_write_is_the_judges,
    an_answer_is_the_judges, views_show_the_store,
};
use hs_effects::{
    a_delete_is_answered_at_its_effect, a_drop_is_answered_at_its_effect,
    a_got_is_silent_or_a_sweep, a_new_block_is_answered_at_its_effect,
    a_present_block_is_answered_at_its_effect, a_root_is_answered_at_its_effect,
    an_enter_by_itself_is_told, no_line_waits_twice,
};
use hs_memory::catalogues_in_memory_are_folds;
use hs_standing::{a_line_asks_as_its_command, a_scripts_events_may_come, a_scripts_lines_are_new};
use hs_told::answers_stay_in_order;

/// Along events that come in a run, as long as root records and waiting Roots are few: where each
/// report tells what is sealed of its peer's list, it tells the operation that waits for it the bytes of
/// its block, as the plain store has it then (`told`).
/// For any number of copies it is so of each event that comes to a core whose folds are those of what took
/// effect, where a peer that is to read has that sealed (`report`); so of all events of a run over sound lists, from
/// opening on (`soundly`), and so of a script's, also where the last line is cut short or the core ends (`script`).
pub fn each_report_tells_its_block()
    ensures told { (start : Start) (c : Whole) (events : Events)
        → IsReading start c → AllCome (judging_of start) c.core events
        → KeepsRecordRoom c.core events → AreTold c events →
        TellTheirBlocks (judging_of start) start.entry c.core events }
    ensures script { (start : Start) (found : Found) (past done : Bool) (opening : Events)
        (lines : List Events) (to : ℕ)
        → RunBegins start found → MomentsRise found.opened (opening ++ all_events lines) to
        → is_walk next_due done 0 (first_core start.set found) opening ≡ true
        → AreLines (script_of start past) 1 (steps (first_core start.set found) opening) lines
        → KeepsRecordRoom (first_core start.set found) (opening ++ all_events lines)
        → AreTold (open_whole start.set found) (opening ++ all_events lines) →
        TellTheirBlocks (judging_of start) start.entry (first_core start.set found)
        (opening ++ all_events lines) }
    ensures report { (start : Start) (c : Whole) (event : Event)
        → ReadsWhatIsSealed start c → IsTold c (report_in event) →
        ReportsBlocks (judging_of start) start.entry event c.core }
    ensures soundly { (start : Start) (found : Found) (events : Events) → RunBegins start found
        → AllCome (judging_of start) (first_core start.set found) events
        → KeepsRecordRoom (first_core start.set found) events
        → AreTold (open_whole start.set found) events →
        TellTheirBlocks (judging_of start) start.entry (first_core start.set found) events }
{
    a_step_that_answers_is_the_judges();
    an_answer_is_the_judges();
    a_read_is_the_judges();
    a_write_is_the_judges();
    views_show_the_store();
    a_new_block_is_answered_at_its_effect();
    a_present_block_is_answered_at_its_effect();
    a_root_is_answered_at_its_effect();
    a_drop_is_answered_at_its_effect();
    a_delete_is_answered_at_its_effect();
    an_enter_by_itself_is_told();
    a_got_is_silent_or_a_sweep();
    no_line_waits_twice();
    answers_stay_in_order();
    catalogues_in_memory_are_folds();
    a_line_asks_as_its_command();
    a_scripts_events_may_come();
    a_scripts_lines_are_new();
}
