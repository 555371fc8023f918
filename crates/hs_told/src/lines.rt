//! What the event of a client's line tells.
ghost use Rattle.std.specs.Prelude.{◌≡◌, ℕ, List, Option, Some, None};
ghost use Rattle.hs_answered.specs.Asked.{IsAsked};
ghost use Rattle.hs_answered.specs.Standing.{IsFolded, store_with};
ghost use Rattle.hs_answered.specs.Telling.{Judging, Tells};
ghost use Rattle.hs_core_words.specs.declared.event.Event.TheVariants as event;
ghost use Rattle.hs_core_words.specs.State.{Core};
ghost use Rattle.hs_core_words.specs.Step.{step};
ghost use Rattle.hs_fold.specs.Runs.Facts.{Catalogue as Folded};
ghost use Rattle.hs_journal.specs.Events.{addressed, client_op};
ghost use Rattle.hs_model.specs.declared.command.Command.{Command};
ghost use Rattle.hs_model.specs.declared.op.Op.{Op};
ghost use Rattle.hs_model.specs.Store.{Store};
ghost use Rattle.hs_told.specs.InTurn.{IsInTurn, told_of};
ghost use Rattle.hs_told.specs.Lines.{TakesLine};

use hs_answered::a_step_that_answers_is_the_judges;

/// The event of a client's line adds one entry at most to the journal: that its session is busy,
/// or what the plain store's judge says, where the operation does not wait; and the store of the
/// core is then the one that the judge leaves. So a journal that tells a legal run of the plain
/// store up to the core's store tells one afterwards too.
pub fn a_line_is_told()
    ensures takes { (commands : ℕ → Option Command) (cs : List Folded) (core : Core)
        (line moment : ℕ) (o : Op)
        → IsInTurn commands core → core.ended ≡ None → IsFolded core cs
        → IsAsked (store_with cs core.sessions) o → TakesLine cs core line moment o }
    ensures tells { (by : Judging) (start : Store) (cs : List Folded) (core : Core)
        (line moment : ℕ) (o said : Op)
        → IsInTurn by.commands core → core.ended ≡ None → IsFolded core cs
        → by.limits ≡ core.limits → client_op (by.commands line) ≡ Some said
        → addressed by.name (store_with cs core.sessions) said ≡ o
        → Tells by start (told_of core) (store_with cs core.sessions) →
        Tells by start (told_of (step (event.Line line o) moment core))
        (store_with cs (step (event.Line line o) moment core).sessions) }
{
    a_step_that_answers_is_the_judges();
}
