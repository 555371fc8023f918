//! A run whose operations wait for blocks that are there.
ghost use Rattle.std.specs.Prelude.{◌≡◌, ℕ, None};
ghost use Rattle.hs_standing.specs.Walks.{HasRecordRoom};
ghost use Rattle.hs_standing.specs.Answered.{KeepsRecordRoom};
ghost use Rattle.hs_cluster.specs.Kept.{AreTold, IsTold};
ghost use Rattle.hs_core_words.specs.declared.event.Event.{Event};
ghost use Rattle.hs_core_words.specs.Step.{step};
ghost use Rattle.hs_events.specs.Asked.{report_in};
ghost use Rattle.hs_events.specs.Course.{steps};
ghost use Rattle.hs_events.specs.Due.{Events};
ghost use Rattle.hs_events.specs.Found.{Found, first_core};
ghost use Rattle.hs_events.specs.Whole.{Whole, open_whole, step_whole};
ghost use Rattle.hs_moments.specs.Machine.{runs};
ghost use Rattle.hs_moments.specs.WholeMachine.{whole_machine};
ghost use Rattle.hs_clauses.specs.Along.{AllCome, Comes};
ghost use Rattle.hs_clauses.specs.Run.{IsReading, ReadsInStep};
ghost use Rattle.hs_standing.specs.Run.{RunBegins, RunOpens};
ghost use Rattle.hs_standing.specs.Standing.{judging_of};
ghost use Rattle.hs_standing.specs.Start.{Start};

use hs_answered::{
    a_read_is_the_judges, a_step_that_answers_is_the_judges, a_write_is_the_judges,
    an_answer_is_the_judges, views_show_the_store,
};
use hs_effects::{
    a_delete_is_answered_at_its_effect, a_drop_is_answered_at_its_effect,
    a_got_is_silent_or_a_sweep, a_new_block_is_answered_at_its_effect,
    a_present_block_is_answered_at_its_effect, a_root_is_answered_at_its_effect,
    an_enter_by_itself_is_told, no_line_waits_twice,
};
use hs_memory::catalogues_in_memory_are_folds;
use hs_told::answers_stay_in_order;

/// Each operation that waits for the bytes of an entry has asked for them, and what a read's handle
/// stands for is there, stored by that entry, as long as the handle may be used; each job that reads
/// is in the queue of its operation's shard. So it is as a run opens over sound lists (`opens`), and
/// behind events that come, whose reports tell what the lists have, while its core goes on (`goes_on`). For any number
/// of copies it is so beside the machines of the copies: as the run opens (`soundly`), and behind each event (`event`).
pub fn a_run_reads_on()
    ensures opens { (start : Start) (found : Found)
        → RunOpens start found → IsReading start (open_whole start.set found) }
    ensures goes_on { (start : Start) (c : Whole) (events : Events)
        → IsReading start c → AllCome (judging_of start) c.core events
        → KeepsRecordRoom c.core events
        → ((steps c.core events).ended ≡ None → HasRecordRoom (steps c.core events))
        → AreTold c events → (steps c.core events).ended ≡ None →
        IsReading start (runs whole_machine c events) }
    ensures soundly { (start : Start) (found : Found) → RunBegins start found
        → (first_core start.set found).ended ≡ None → ReadsInStep start (open_whole start.set found) }
    ensures event { (start : Start) (c : Whole) (event : Event) (moment : ℕ)
        → ReadsInStep start c → Comes (judging_of start) c.core event moment → HasRecordRoom c.core
        → IsTold c (report_in event) → (step event moment c.core).ended ≡ None →
        ReadsInStep start (step_whole event moment c) }
{
    a_step_that_answers_is_the_judges();
    an_answer_is_the_judges();
    a_read_is_the_judges();
    a_write_is_the_judges();
    views_show_the_store();
    a_new_block_is_answered_at_its_effect();
    a_present_block_is_answered_at_its_effect();
    a_root_is_answered_at_its_effect();
    a_drop_is_answered_at_its_effect();
    a_delete_is_answered_at_its_effect();
    an_enter_by_itself_is_told();
    a_got_is_silent_or_a_sweep();
    no_line_waits_twice();
    answers_stay_in_order();
    catalogues_in_memory_are_folds();
}
