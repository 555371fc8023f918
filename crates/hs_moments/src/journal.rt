//! The journal of a run.
ghost use Rattle.std.specs.Prelude.{◌≡◌, ℕ, [], ◌++◌, All};
ghost use Rattle.hs_events.specs.Course.{happened, steps};
ghost use Rattle.hs_events.specs.Due.{Events, MomentsRise};
ghost use Rattle.hs_core_words.specs.declared.event.Event.{Event};
ghost use Rattle.hs_core_words.specs.State.{Core};
ghost use Rattle.hs_core_words.specs.Step.{step};
ghost use Rattle.hs_moments.specs.Answers.{added};
ghost use Rattle.hs_moments.specs.CoreMachine.{core_at};
ghost use Rattle.hs_journal.specs.Moments.{below};

/// An event appends to the journal, at its own moment. So the journal of the core at a moment of a run
/// is what the whole journal has below it, where all that was there before the run is below it. Between
/// two events no entry waits to be appended. What the journal had no room for is in none of them.
#[tactic(auto, using(crate::proofs::JournalLemmas::journal_after, crate::proofs::JournalLemmas::added_at, crate::proofs::JournalLemmas::entries_after, crate::proofs::CoreLemmas::journal_at, crate::proofs::CoreLemmas::entries_at, crate::proofs::HappenedLemmas::journal_happened))]
pub fn the_journal_tells_each_moment()
    ensures added { (core : Core) (event : Event) (moment : ℕ)
        → (step event moment core).journal ≡ core.journal ++ added event moment core }
    ensures stamped { (core : Core) (event : Event) (moment : ℕ) → core.entries ≡ []
        → All (λ entry. entry.moment ≡ moment) (added event moment core) }
    ensures between { (core : Core) (event : Event) (moment : ℕ) → core.entries ≡ []
        → (step event moment core).entries ≡ [] }
    ensures told { (core : Core) (events : Events) (from to moment : ℕ) → core.entries ≡ []
        → MomentsRise from events to → below moment core.journal ≡ core.journal
        → (core_at core events moment).journal ≡ below moment (steps core events).journal }
    ensures none { (core : Core) (events : Events) (moment : ℕ) → core.entries ≡ []
        → (core_at core events moment).entries ≡ [] }
    ensures happened { (core : Core) (events : Events)
        → (steps core (happened core events)).journal ≡ (steps core events).journal }
{}
