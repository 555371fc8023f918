//! What each of the changes keeps, an event keeps, and a core has that opens.
ghost use Rattle.std.specs.Prelude.{◌≡◌, ℕ, List, [], None, true};
ghost use Rattle.hs_standing.specs.Copies.{IsSeated, KnowsItsCopies};
ghost use Rattle.hs_standing.specs.Tests.{AreKept, AreKeptByViews, AreKeptOpen, IsGranted, Tests};
ghost use Rattle.hs_standing.specs.Walks.{HasRecordRoom};
ghost use Rattle.hs_core_words.specs.declared.event.Event.{Event};
ghost use Rattle.hs_core_words.specs.Looking.{shape_of};
ghost use Rattle.hs_core_words.specs.Opening.{Taken, new_core, open_core};
ghost use Rattle.hs_core_words.specs.State.{Core};
ghost use Rattle.hs_core_words.specs.Step.{step};
ghost use Rattle.hs_limits.specs.declared.limits.Limits.{Limits};
ghost use Rattle.hs_limits.specs.declared.shape.Shape.{Shape};

/// Where each of ten single changes keeps what holds of a core, and a view that begins where shards
/// have more copies than one, and what is asked of a change stays so beside a run, each event keeps
/// it, for any number of copies: of a core that goes on, with its seats, where what is known of copies
/// is within their lists, the root records and the Roots that wait are few, the journal had room so
/// far, and what is asked of the event holds.
pub fn each_event_keeps_it()
    ensures { (tests : Tests) (core : Core) (event : Event) (moment : ℕ)
        → AreKept tests → AreKeptByViews tests (shape_of core) → core.ended ≡ None
        → IsSeated core → KnowsItsCopies core → HasRecordRoom core → core.refused ≡ []
        → IsGranted tests event core → tests.holds core ≡ true →
        tests.holds (step event moment core) ≡ true }
{}

/// Where a first view keeps it too, whatever holds of a new core holds of the core that opens, for any
/// number of copies.
pub fn opening_keeps_it()
    ensures { (tests : Tests) (shape : Shape) (limits : Limits)
        (found : Taken) (moment : ℕ)
        → AreKeptOpen tests → tests.holds (new_core shape limits found moment) ≡ true →
        tests.holds (open_core shape limits found moment) ≡ true }
{}
