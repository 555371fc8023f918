//! What waits may come.
ghost use Rattle.std.specs.Prelude.{◌≡◌, ◌<◌, ◌≤◌, ℕ, List, Some, length};
ghost use Rattle.hs_core_words.specs.Looking.{catalogue_of, group_of, shape_of};
ghost use Rattle.hs_core_words.specs.State.{Core};
ghost use Rattle.hs_effects.specs.Lawful.{MayFollow};
ghost use Rattle.hs_effects.specs.Taking.{next_deed, setting_of, taken};
ghost use Rattle.hs_entry.specs.declared.entry.Entry.{Entry};
ghost use Rattle.hs_fold.specs.Runs.Facts.{Catalogue as Folded};
ghost use Rattle.hs_fold.specs.Shards.Sound.{most_records};
ghost use Rattle.hs_limits.specs.declared.address.Address.{Address};
ghost use Rattle.hs_replica.specs.Group.{committed};
ghost use Rattle.hs_standing.specs.Rests.{IsGrounded};

/// Where what waits rests on what is there, the entry of a shard that every good peer is known to
/// have sealed may come behind what took effect, unless a shard would have more root records than
/// it takes.
pub fn an_entry_that_waits_may_come()
    ensures { (name : List ℕ → Address) (cs : List Folded) (core : Core) (shard number : ℕ)
        (entry : Entry)
        → IsGrounded name core cs → shard < (shape_of core).shards
        → committed (group_of shard core) ≡ Some (number, entry)
        → ((g : ℕ) → length (catalogue_of g (taken shard entry core)).roots ≤ most_records) →
        MayFollow (setting_of name core) cs (next_deed shard entry core) }
{}
