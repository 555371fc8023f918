//! What waits of rounds may come.
ghost use Rattle.std.specs.Prelude.{◌≡◌, ℕ, List, Some, slice_get, true};
ghost use Rattle.hs_core_words.specs.Looking.{group_of, shape_of};
ghost use Rattle.hs_core_words.specs.State.{Core};
ghost use Rattle.hs_effects.specs.Lawful.{IsLawful};
ghost use Rattle.hs_effects.specs.Taking.{setting_of};
ghost use Rattle.hs_entry.specs.declared.entry.Entry.TheVariants as kind;
ghost use Rattle.hs_fold.specs.Runs.Facts.{Catalogue as Folded};
ghost use Rattle.hs_fold.specs.Runs.Fits.{catalogue_at};
ghost use Rattle.hs_fold.specs.Runs.Rounds.{is_accepted};
ghost use Rattle.hs_limits.specs.declared.address.Address.{Address};
ghost use Rattle.hs_limits.specs.declared.delta.Delta.{Delta};
ghost use Rattle.hs_standing.specs.Sent.{AreSent};
ghost use Rattle.hs_waiting.specs.Waits.{EntryWaits};

/// Each Got that waits, of whatever shard, may come: its sender is there and keeps the round as sent
/// (`waits`), and its shard would accept it (`accepted`).
pub fn a_waiting_got_may_come()
    ensures waits { (name : List ℕ → Address) (cs : List Folded) (core : Core)
        (lawful : IsLawful name core cs) (shard at from epoch round total : ℕ) (deltas : List Delta)
        → AreSent (setting_of name core) lawful.lawful.history core
        → slice_get (group_of shard core).waiting at
        ≡ Some (kind.Got from epoch round total deltas) →
        EntryWaits cs shard (kind.Got from epoch round total deltas) }
    ensures accepted { (name : List ℕ → Address) (cs : List Folded) (core : Core)
        (lawful : IsLawful name core cs) (shard at from epoch round total : ℕ) (deltas : List Delta)
        → AreSent (setting_of name core) lawful.lawful.history core
        → slice_get (group_of shard core).waiting at
        ≡ Some (kind.Got from epoch round total deltas) →
        is_accepted (shape_of core).shards (catalogue_at cs shard)
        (record { epoch = epoch; round = round; from = from }) ≡ true }
{}
