//! What a core tells of deletions, as it opens, behind each event, and along a run.
ghost use Rattle.std.specs.Prelude.{◌≡◌, ℕ, List, [], None, take};
ghost use Rattle.hs_standing.specs.Walks.{HasRecordRoom};
ghost use Rattle.hs_answered.specs.Telling.{Judging};
ghost use Rattle.hs_core_words.specs.declared.event.Event.{Event};
ghost use Rattle.hs_core_words.specs.Opening.{Taken, open_core};
ghost use Rattle.hs_core_words.specs.State.{Core};
ghost use Rattle.hs_core_words.specs.Step.{step};
ghost use Rattle.hs_settled.specs.Deletion.{TellsDeletion};
ghost use Rattle.hs_events.specs.Course.{steps};
ghost use Rattle.hs_events.specs.Due.{Events};
ghost use Rattle.hs_events.specs.Found.{Found, first_core};
ghost use Rattle.hs_fold.specs.Runs.Facts.{Catalogue as Folded};
ghost use Rattle.hs_standing.specs.Copies.{AllComeOn, IsSeated, KnowsItsCopies};
ghost use Rattle.hs_standing.specs.Held.{GivesAddresses};
ghost use Rattle.hs_laws.specs.Valid.{IsValid};
ghost use Rattle.hs_standing.specs.Legal.{IsStanding, MayStand};
ghost use Rattle.hs_limits.specs.declared.limits.Limits.{Limits};
ghost use Rattle.hs_limits.specs.declared.shape.Shape.{Shape};
ghost use Rattle.hs_model.specs.Store.{Store};
ghost use Rattle.hs_standing.specs.Run.{MayRun, RunBegins};
ghost use Rattle.hs_standing.specs.Standing.{AllMayKeep, judging_of};
ghost use Rattle.hs_standing.specs.Start.{Start};

use hs_answered::{
    a_read_is_the_judges, a_step_that_answers_is_the_judges, a_write_is_the_judges,
    an_answer_is_the_judges, views_show_the_store,
};
use hs_effects::{
    a_delete_is_answered_at_its_effect, a_drop_is_answered_at_its_effect,
    a_got_is_silent_or_a_sweep, a_new_block_is_answered_at_its_effect,
    a_present_block_is_answered_at_its_effect, a_root_is_answered_at_its_effect,
    an_enter_by_itself_is_told,
};
use hs_laws::sweep_is_exact;
use hs_memory::catalogues_in_memory_are_folds;

/// A core that opens has told of no sweep and of no run that is done, whatever the number of copies
/// (`opens`). Of a core that stands, between two events, each event that may come keeps the rule: each
/// sweep that is told is exact at its place, and `done` stands directly behind the sweep that ends its
/// run, and nowhere else (`event`), for any number of copies: of a core that goes on, with its seats,
/// where what is known of copies is within their lists, the root records and the Roots that wait are
/// few, and the journal had room so far. So it is of what found the journal full, and of the journal
/// alone. Behind each front of events one after another it is kept too, as long as all this is so
/// (`events`).
pub fn each_event_keeps_the_rule_of_done()
    ensures opens { (by : Judging) (start : Store) (shape : Shape) (limits : Limits)
        (taken : Taken) (moment : ℕ) →
        TellsDeletion by start (open_core shape limits taken moment) }
    ensures event { (by : Judging) (start : Store) (core : Core) (event : Event) (moment : ℕ)
        (cs : List Folded)
        → GivesAddresses by.name → IsValid start → core.ended ≡ None
        → IsSeated core → KnowsItsCopies core → HasRecordRoom core
        → core.entries ≡ [] → core.refused ≡ []
        → MayStand by start event core → IsStanding by start core cs
        → TellsDeletion by start core →
        TellsDeletion by start (step event moment core) }
    ensures events { (by : Judging) (start : Store) (core : Core) (events : Events)
        (cs : List Folded)
        → GivesAddresses by.name → IsValid start → core.refused ≡ [] → core.entries ≡ []
        → AllComeOn (MayStand by start) core events → IsStanding by start core cs
        → TellsDeletion by start core →
        (n : ℕ) → TellsDeletion by start (steps core (take n events)) }
{
    a_step_that_answers_is_the_judges();
    an_answer_is_the_judges();
    a_read_is_the_judges();
    a_write_is_the_judges();
    views_show_the_store();
    a_new_block_is_answered_at_its_effect();
    a_present_block_is_answered_at_its_effect();
    a_root_is_answered_at_its_effect();
    a_drop_is_answered_at_its_effect();
    a_delete_is_answered_at_its_effect();
    an_enter_by_itself_is_told();
    a_got_is_silent_or_a_sweep();
    sweep_is_exact();
}

/// So a run over sound lists keeps it behind any events that may come, also where its core ends with
/// one of them.
pub fn a_run_keeps_the_rule_of_done()
    ensures { (start : Start) (found : Found) (events : Events)
        → RunBegins start found
        → AllMayKeep start (MayRun start) (first_core start.set found) events →
        TellsDeletion (judging_of start) start.entry
        (steps (first_core start.set found) events) }
{
    a_step_that_answers_is_the_judges();
    an_answer_is_the_judges();
    a_read_is_the_judges();
    a_write_is_the_judges();
    views_show_the_store();
    a_new_block_is_answered_at_its_effect();
    a_present_block_is_answered_at_its_effect();
    a_root_is_answered_at_its_effect();
    a_drop_is_answered_at_its_effect();
    a_delete_is_answered_at_its_effect();
    an_enter_by_itself_is_told();
    a_got_is_silent_or_a_sweep();
    sweep_is_exact();
    catalogues_in_memory_are_folds();
}
