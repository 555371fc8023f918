//! Why what a peer is known to have sealed changes.
ghost use Rattle.std.specs.Prelude.{◌≡◌, ◌⊎◌, ℕ, Some};
ghost use Rattle.hs_anatomy.specs.Acts.{begun};
ghost use Rattle.hs_copies.specs.Machine.{Copies};
ghost use Rattle.hs_core_copies.specs.InStep.{IsInStep, IsOf};
ghost use Rattle.hs_core_words.specs.Looking.{known_of};
ghost use Rattle.hs_core_words.specs.State.{Core};
ghost use Rattle.hs_core_words.specs.Step.{step};
ghost use Rattle.hs_core_words.specs.declared.event.Event.{Event};
ghost use Rattle.hs_entry.specs.declared.entry.Entry.{Entry};
ghost use Rattle.hs_known_copies.specs.Causes.{IsKnownBy};

/// Where a shard is in step, an event changes how many entries a peer of it is known to have sealed only by its
/// Seal, by a Have of it, or where a view of the shard begins: a good peer of it goes down, or one that has all of the
/// lead's list joins.
pub fn what_is_known_changes_by_its_cause()
    ensures { (shard peer : ℕ) (core : Core) (copies : Copies Entry) (event : Event) (moment : ℕ)
        → IsInStep shard core copies → IsOf core.members.shape shard peer →
        (known_of peer (step event moment core) ≡ known_of peer core)
        ⊎ IsKnownBy (begun event moment core) (Some event) peer }
{}
