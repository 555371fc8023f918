//! What took effect.
ghost use Rattle.std.specs.Prelude.{◌≡◌, ◌≤◌, ℕ, None};
ghost use Rattle.hs_core_words.specs.Calls.{last_line_after};
ghost use Rattle.hs_core_words.specs.declared.event.Event.{Event};
ghost use Rattle.hs_core_words.specs.Looking.{front_of};
ghost use Rattle.hs_core_words.specs.State.{Core};
ghost use Rattle.hs_core_words.specs.Step.{step};

/// Whatever happens, how many entries of a shard have taken effect never falls, the store keeps its
/// shape and its limits, and the core has the moment and the last line of the event.
#[tactic(auto, using(crate::proofs::CoreLemmas::rises_at, crate::proofs::CoreLemmas::shape_at, crate::proofs::CoreLemmas::limits_at, crate::proofs::CoreLemmas::moment_at, crate::proofs::CoreLemmas::line_at))]
pub fn what_took_effect_stays()
    ensures fronts { (core : Core) (event : Event) (moment shard : ℕ)
        → front_of shard core ≤ front_of shard (step event moment core) }
    ensures shape { (core : Core) (event : Event) (moment : ℕ)
        → (step event moment core).members.shape ≡ core.members.shape }
    ensures limits { (core : Core) (event : Event) (moment : ℕ)
        → (step event moment core).limits ≡ core.limits }
    ensures moment { (core : Core) (event : Event) (moment : ℕ) → core.ended ≡ None
        → (step event moment core).moment ≡ moment }
    ensures last_line { (core : Core) (event : Event) (moment : ℕ) → core.ended ≡ None
        → (step event moment core).progress.last_line ≡ last_line_after event core }
{}
