//! Sizes stay.
ghost use Rattle.std.specs.Prelude.{◌≡◌};
ghost use Rattle.hs_anatomy.specs.Sizes.{sizes_of};
ghost use Rattle.hs_core_words.specs.declared.event.Event.{Event};
ghost use Rattle.hs_core_words.specs.State.{Core};
ghost use Rattle.hs_core_words.specs.Step.{do_event};

/// What an event does leaves the sizes of a core: its shape, how many lists, statuses, queues,
/// joining peers and views it has, and how many messages may be under way.
pub fn sizes_stay()
    ensures { (core : Core) (event : Event) →
        sizes_of (do_event event core) ≡ sizes_of core }
{}
