//! What is told is a legal run of the plain store, behind opening and behind each event.
ghost use Rattle.std.specs.Prelude.{◌≡◌, ◌≤◌, ℕ, List, [], Some, None};
ghost use Rattle.hs_standing.specs.Walks.{HasRecordRoom};
ghost use Rattle.hs_answered.specs.Standing.{store_with};
ghost use Rattle.hs_answered.specs.Telling.{Judging, Tells};
ghost use Rattle.hs_core_words.specs.declared.event.Event.{Event};
ghost use Rattle.hs_core_words.specs.Looking.{operation_of};
ghost use Rattle.hs_core_words.specs.Opening.{Taken, open_core};
ghost use Rattle.hs_core_words.specs.State.{Core};
ghost use Rattle.hs_core_words.specs.Step.{step};
ghost use Rattle.hs_effects.specs.Logged.{MayBegin};
ghost use Rattle.hs_events.specs.Asked.{addressed};
ghost use Rattle.hs_events.specs.Course.{steps};
ghost use Rattle.hs_events.specs.Due.{Events};
ghost use Rattle.hs_events.specs.Sane.{IsSane};
ghost use Rattle.hs_events.specs.Whole.{Whole};
ghost use Rattle.hs_fold.specs.Runs.Facts.{Catalogue as Folded};
ghost use Rattle.hs_standing.specs.Copies.{AllComeOn, IsSeated, KnowsItsCopies};
ghost use Rattle.hs_standing.specs.Held.{GivesAddresses};
ghost use Rattle.hs_journal.specs.Events.{client_op};
ghost use Rattle.hs_laws.specs.Valid.{IsValid};
ghost use Rattle.hs_standing.specs.Coming.{ComesAddressed, ReportsBlocks};
ghost use Rattle.hs_standing.specs.Commands.{IsLineOf};
ghost use Rattle.hs_standing.specs.Opens.{MayOpen};
ghost use Rattle.hs_standing.specs.Legal.{IsStanding, MayStand};
ghost use Rattle.hs_limits.specs.declared.shape.Shape.{Shape};
ghost use Rattle.hs_model.specs.declared.op.Op.{Op};
ghost use Rattle.hs_model.specs.Store.{Store};
ghost use Rattle.hs_told.specs.InTurn.{MayCome, told_of};

use hs_answered::{
    a_read_is_the_judges, a_step_that_answers_is_the_judges, a_write_is_the_judges,
    an_answer_is_the_judges, views_show_the_store,
};
use hs_effects::{
    a_delete_is_answered_at_its_effect, a_drop_is_answered_at_its_effect,
    a_got_is_silent_or_a_sweep, a_new_block_is_answered_at_its_effect,
    a_present_block_is_answered_at_its_effect, a_root_is_answered_at_its_effect,
    an_enter_by_itself_is_told,
};

/// The event of a script's line comes as its command asks, where it is new and comes with the
/// address of its block.
pub fn a_line_asks_as_its_command()
    ensures { (by : Judging) (core : Core) (line : ℕ) (said : Op)
        → client_op (by.commands line) ≡ Some said → operation_of line core ≡ None → 1 ≤ line →
        IsLineOf by core line (addressed by.name core.sessions said) }
{}

/// An event that may come (hs_told) and may begin (hs_effects), where a write has the address of its
/// block, and a report the bytes of its block, may come to a core that stands.
pub fn an_event_may_come_to_it()
    ensures { (by : Judging) (start : Store) (core : Core) (event : Event) (moment : ℕ)
        → MayCome by.commands core event moment → MayBegin by.name event core
        → ComesAddressed by event core → ReportsBlocks by start event core →
        MayStand by start event core }
{}

/// A core that opens stands for some folds, from the store of the folds with which it opened
/// (`opens`), where these are of a lawful history. An event that may come leaves a core that
/// stands, from the same store, for some folds: on a sane store of one copy a shard, where the root
/// records and the Roots that wait are few, and the journal had room so far (`event`); and for any
/// number of copies, whatever is sent between them, of a core that goes on, with its seats, where what
/// is known of copies is within their lists (`copies`). So a view that begins keeps it, which cuts a
/// list and has operations start again; and some events do, one after another (`events`). Of a core that
/// stands and has told an event whole, the journal, with what found it full, is a legal run
/// of the plain store from that store on, with its answers, and leaves the store of the folds and the
/// open sessions (`tells`).
pub fn each_event_is_told()
    ensures opens { (by : Judging) (shape : Shape) (taken : Taken) (moment : ℕ) (cs : List Folded)
        → GivesAddresses by.name → MayOpen by shape taken moment cs →
        (after : List Folded)
        × IsStanding by (store_with cs []) (open_core shape by.limits taken moment) after }
    ensures event { (by : Judging) (start : Store) (whole : Whole) (event : Event) (moment : ℕ)
        (cs : List Folded)
        → GivesAddresses by.name → IsValid start
        → IsSane whole → HasRecordRoom whole.core → whole.core.refused ≡ []
        → MayStand by start event whole.core → IsStanding by start whole.core cs →
        (after : List Folded) × IsStanding by start (step event moment whole.core) after }
    ensures copies { (by : Judging) (start : Store) (core : Core) (event : Event) (moment : ℕ)
        (cs : List Folded)
        → GivesAddresses by.name → IsValid start → core.ended ≡ None
        → IsSeated core → KnowsItsCopies core → HasRecordRoom core → core.refused ≡ []
        → MayStand by start event core → IsStanding by start core cs →
        (after : List Folded) × IsStanding by start (step event moment core) after }
    ensures events { (by : Judging) (start : Store) (core : Core) (events : Events)
        (cs : List Folded)
        → GivesAddresses by.name → IsValid start → core.refused ≡ [] → core.entries ≡ []
        → AllComeOn (MayStand by start) core events → IsStanding by start core cs →
        (after : List Folded) × IsStanding by start (steps core events) after }
    ensures tells { (by : Judging) (start : Store) (core : Core) (cs : List Folded)
        → IsStanding by start core cs → core.entries ≡ [] →
        Tells by start (told_of core) (store_with cs core.sessions) }
{
    a_step_that_answers_is_the_judges();
    an_answer_is_the_judges();
    a_read_is_the_judges();
    a_write_is_the_judges();
    views_show_the_store();
    a_new_block_is_answered_at_its_effect();
    a_present_block_is_answered_at_its_effect();
    a_root_is_answered_at_its_effect();
    a_drop_is_answered_at_its_effect();
    a_delete_is_answered_at_its_effect();
    an_enter_by_itself_is_told();
    a_got_is_silent_or_a_sweep();
}
