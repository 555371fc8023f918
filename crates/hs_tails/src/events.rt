//! Tails along events.
ghost use Rattle.std.specs.Prelude.{◌≡◌, ℕ, List, [], None};
ghost use Rattle.hs_answered.specs.Telling.{Judging};
ghost use Rattle.hs_core_words.specs.declared.event.Event.{Event};
ghost use Rattle.hs_core_words.specs.Records.{HasRecordRoom};
ghost use Rattle.hs_core_words.specs.State.{Core};
ghost use Rattle.hs_core_words.specs.Step.{step};
ghost use Rattle.hs_events.specs.Course.{steps};
ghost use Rattle.hs_events.specs.Due.{Events};
ghost use Rattle.hs_fold.specs.Runs.Facts.{Catalogue as Folded};
ghost use Rattle.hs_laws.specs.Valid.{IsValid};
ghost use Rattle.hs_model.specs.Store.{Store};
ghost use Rattle.hs_standing.specs.Copies.{AllComeOn, IsSeated, KnowsItsCopies};
ghost use Rattle.hs_standing.specs.Held.{GivesAddresses};
ghost use Rattle.hs_standing.specs.Legal.{IsStanding, MayStand};
ghost use Rattle.hs_tails.specs.Tails.{TailsGoOn, TakesFirst};

use hs_answered::{
    a_read_is_the_judges, a_step_that_answers_is_the_judges, a_write_is_the_judges,
    an_answer_is_the_judges, views_show_the_store,
};
use hs_effects::{
    a_delete_is_answered_at_its_effect, a_drop_is_answered_at_its_effect,
    a_got_is_silent_or_a_sweep, a_new_block_is_answered_at_its_effect,
    a_present_block_is_answered_at_its_effect, a_root_is_answered_at_its_effect,
    an_enter_by_itself_is_told,
};

/// An event that may come leaves a core that stands, and of each tail that rested on what is there as
/// it came, and that began with what took effect of its shard by the event, the rest rests; and that
/// waited first as the event came (`event`);
/// so do some, one after another (`events`). For any number of copies, also where a view begins, which
/// cuts the lead's list and leaves what was cut a tail.
pub fn each_event_keeps_tails()
    ensures event { (by : Judging) (start : Store) (core : Core) (event : Event) (moment : ℕ)
        (cs : List Folded)
        → GivesAddresses by.name → IsValid start → core.ended ≡ None
        → IsSeated core → KnowsItsCopies core → HasRecordRoom core → core.refused ≡ []
        → MayStand by start event core → IsStanding by start core cs →
        TakesFirst by start core (step event moment core) cs }
    ensures events { (by : Judging) (start : Store) (core : Core) (events : Events)
        (cs : List Folded)
        → GivesAddresses by.name → IsValid start → core.refused ≡ [] → core.entries ≡ []
        → AllComeOn (MayStand by start) core events → IsStanding by start core cs →
        TailsGoOn by start core (steps core events) cs }
{
    a_step_that_answers_is_the_judges();
    an_answer_is_the_judges();
    a_read_is_the_judges();
    a_write_is_the_judges();
    views_show_the_store();
    a_new_block_is_answered_at_its_effect();
    a_present_block_is_answered_at_its_effect();
    a_root_is_answered_at_its_effect();
    a_drop_is_answered_at_its_effect();
    a_delete_is_answered_at_its_effect();
    an_enter_by_itself_is_told();
    a_got_is_silent_or_a_sweep();
}
