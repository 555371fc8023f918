//! What is known to be sealed.
ghost use Rattle.std.specs.Prelude.{◌≡◌, ℕ, None};
ghost use Rattle.hs_events.specs.Asked.{report_in};
ghost use Rattle.hs_core_words.specs.declared.event.Event.{Event};
ghost use Rattle.hs_core_words.specs.Looking.{sealed_of};
ghost use Rattle.hs_core_words.specs.State.{Core};
ghost use Rattle.hs_core_words.specs.Step.{step};

/// An event that is no report leaves how many entries each peer has sealed: so it raises no floor of a
/// disk.
#[tactic(auto, using(crate::proofs::SealLemmas::seals_stay))]
pub fn only_reports_tell_of_seals()
    ensures { (core : Core) (event : Event) (moment peer : ℕ) → report_in event ≡ None
        → sealed_of peer (step event moment core) ≡ sealed_of peer core }
{}
