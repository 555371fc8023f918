//! What acts aside leave.
ghost use Rattle.std.specs.Prelude.{◌≡◌, ℕ, Option};
ghost use Rattle.hs_anatomy.specs.Acts.{Aside};
ghost use Rattle.hs_anatomy.specs.Kept.{kept_of};
ghost use Rattle.hs_anatomy.specs.Rounds.{BringsNoRound};
ghost use Rattle.hs_core_words.specs.declared.event.Event.{Event};
ghost use Rattle.hs_core_words.specs.Looking.{front_of, group_of};
ghost use Rattle.hs_core_words.specs.State.{Core};

/// An act aside leaves catalogues, sessions, operations and what is told (`kept`), the entries that
/// wait in each list (`waiting`) and how many took effect (`front`), and brings no round that was not
/// under way (`rounds`).
pub fn acts_aside_change_no_answer()
    ensures kept { (begun : Core) (event : Option Event) (old new : Core)
        → Aside begun event old new → kept_of new ≡ kept_of old }
    ensures waiting { (begun : Core) (event : Option Event) (old new : Core) (shard : ℕ)
        → Aside begun event old new →
        (group_of shard new).waiting ≡ (group_of shard old).waiting }
    ensures front { (begun : Core) (event : Option Event) (old new : Core) (shard : ℕ)
        → Aside begun event old new → front_of shard new ≡ front_of shard old }
    ensures rounds { (begun : Core) (event : Option Event) (old new : Core)
        → Aside begun event old new → BringsNoRound old new }
{}
