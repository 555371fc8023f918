//! Lines that were begun.
ghost use Rattle.std.specs.List.{AllByRecursion};
ghost use Rattle.std.specs.Prelude.{◌≡◌, ◌<◌, ℕ, Contains, None, false};
ghost use Rattle.hs_core_words.specs.declared.event.Event.{Event};
ghost use Rattle.hs_core_words.specs.State.{Core};
ghost use Rattle.hs_core_words.specs.Step.{step};
ghost use Rattle.hs_events.specs.Course.{event_items, is_refused, items_of, steps};
ghost use Rattle.hs_events.specs.Due.{Events};
ghost use Rattle.hs_fold.specs.Shards.Images.{Stop};
ghost use Rattle.hs_model.specs.declared.course.CourseItem.{CourseItem};
ghost use Rattle.hs_standing.specs.Standing.{AreBegun};
ghost use Rattle.hs_standing.specs.Start.{Start};
ghost use Rattle.hs_told.specs.InTurn.{AllMayCome, MayCome};

/// Where each client's line up to the last one was begun below the moment of a stop, so it is behind an
/// event of a moment below that, which may come and happened, and whose items the course has; and
/// behind some, while the core goes on.
pub fn each_line_was_begun()
    ensures event { (start : Start) (stop : Stop) (core : Core) (event : Event) (moment : ℕ)
        → core.ended ≡ None → MayCome start.commands core event moment
        → is_refused (step event moment core).ended ≡ false → moment < stop.moment
        → ((i : CourseItem) → Contains (event_items core (event, moment)) i → Contains stop.course i)
        → AreBegun start stop core →
        AreBegun start stop (step event moment core) }
    ensures events { (start : Start) (stop : Stop) (core : Core) (events : Events)
        → (steps core events).ended ≡ None → AllMayCome start.commands core events
        → AllByRecursion (λ (e : Event × ℕ). e.1 < stop.moment) events
        → ((i : CourseItem) → Contains (items_of core events) i → Contains stop.course i)
        → AreBegun start stop core →
        AreBegun start stop (steps core events) }
{}
