//! What the laws of events ask of a core's copies.
ghost use Rattle.std.specs.Prelude.{◌≡◌, ℕ, List, None};
ghost use Rattle.hs_copies.specs.Lists.{Item};
ghost use Rattle.hs_copies.specs.Machine.{Copies};
ghost use Rattle.hs_core_words.specs.declared.event.Event.{Event};
ghost use Rattle.hs_core_words.specs.Opening.{Taken, open_core};
ghost use Rattle.hs_core_words.specs.State.{Core};
ghost use Rattle.hs_core_words.specs.Step.{step};
ghost use Rattle.hs_entry.specs.declared.entry.Entry.{Entry};
ghost use Rattle.hs_events.specs.Due.{Events};
ghost use Rattle.hs_events.specs.Found.{Found, first_core};
ghost use Rattle.hs_fold.specs.Shards.Setting.{Setting};
ghost use Rattle.hs_known_copies.specs.Known.{AllKnowTheirCopies, AreInStep, AreTakenLogs};
ghost use Rattle.hs_limits.specs.declared.limits.Limits.{Limits};
ghost use Rattle.hs_limits.specs.declared.shape.Shape.{Shape};
ghost use Rattle.hs_standing.specs.Copies.{IsSeated, KnowsItsCopies};
ghost use Rattle.hs_standing.specs.Opening.{OpensSoundly};

/// A core of which each shard is in step with the machine of its copies has its seats (`seated`), and what is
/// known of copies is within their lists (`known`); each event keeps it in step, until the core ends (`event`).
/// So it is along any events, as long as the core goes on (`along`).
pub fn what_is_in_step_knows_its_copies()
    ensures seated { (core : Core) (machines : ℕ → Copies Entry) → AreInStep core machines → IsSeated core }
    ensures known { (core : Core) (machines : ℕ → Copies Entry) → AreInStep core machines → KnowsItsCopies core }
    ensures event { (core : Core) (event : Event) (moment : ℕ) (machines : ℕ → Copies Entry)
        → AreInStep core machines → (step event moment core).ended ≡ None
        → (new : ℕ → Copies Entry) × AreInStep (step event moment core) new }
    ensures along { (core : Core) (events : Events) (machines : ℕ → Copies Entry)
        → AreInStep core machines → AllKnowTheirCopies core events }
{}

/// A core that opens with the logs that were taken, and does not end at once, is in step (`opens`); so it has its
/// seats and knows its copies along any events from there, as long as it goes on (`along`). So does the core that a
/// store over sound lists opens (`soundly`).
pub fn a_store_that_opens_comes_on()
    ensures opens { (shape : Shape) (limits : Limits) (taken : Taken) (moment : ℕ) (logs : ℕ → List (Item Entry))
        → AreTakenLogs shape taken logs → (open_core shape limits taken moment).ended ≡ None
        → (machines : ℕ → Copies Entry) × AreInStep (open_core shape limits taken moment) machines }
    ensures along { (shape : Shape) (limits : Limits) (taken : Taken) (moment : ℕ)
        (logs : ℕ → List (Item Entry)) (events : Events) → AreTakenLogs shape taken logs
        → AllKnowTheirCopies (open_core shape limits taken moment) events }
    ensures soundly { (set : Setting) (found : Found) (events : Events) → OpensSoundly set found
        → AllKnowTheirCopies (first_core set found) events }
{}
