//! Events are made of acts.
ghost use Rattle.std.specs.Prelude.{◌≡◌, ℕ, Some, None};
ghost use Rattle.hs_anatomy.specs.Acts.{Acts, begun};
ghost use Rattle.hs_core_words.specs.declared.event.Event.{Event};
ghost use Rattle.hs_core_words.specs.Opening.{Taken, begin_views, new_core, note_down, open_core};
ghost use Rattle.hs_core_words.specs.State.{Core};
ghost use Rattle.hs_core_words.specs.Step.{do_event, end_event, step};
ghost use Rattle.hs_limits.specs.declared.limits.Limits.{Limits};
ghost use Rattle.hs_limits.specs.declared.shape.Shape.{Shape};

/// What an event does to a core between its beginning and its end, it does by acts, one after
/// another (`event`); a core that goes on is that behind the event (`frame`). What opens does so by
/// acts too (`opening`). For any core, and any number of shards and copies.
pub fn each_event_is_made_of_acts()
    ensures event { (core : Core) (event : Event) →
        Acts core (Some event) (do_event event core) }
    ensures frame { (core : Core) (event : Event) (moment : ℕ) → core.ended ≡ None →
        step event moment core ≡ end_event (do_event event (begun event moment core)) }
    ensures opening { (shape : Shape) (limits : Limits) (taken : Taken) (moment : ℕ) →
        Acts (new_core shape limits taken moment) None
        (note_down (begin_views (new_core shape limits taken moment))) }
{}
