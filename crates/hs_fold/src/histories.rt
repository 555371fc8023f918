//! What histories of several shards do to the plain store.
ghost use Rattle.std.specs.Prelude.{◌≡◌, ◌<◌, ℕ, List, All, length};
ghost use Rattle.hs_fold.specs.Lawful.{Deed};
ghost use Rattle.hs_fold.specs.Shards.Catalogue.{Catalogue, apply_all};
ghost use Rattle.hs_fold.specs.Shards.Fits.{catalogue_at};
ghost use Rattle.hs_fold.specs.Shards.Happening.{happen_all, happen_by, happening_of};
ghost use Rattle.hs_fold.specs.Shards.History.{entries_of, follow, follow_all, happenings_along};
ghost use Rattle.hs_fold.specs.Shards.Mine.{AreMine};
ghost use Rattle.hs_fold.specs.Shards.Opened.{catalogues, store_of};
ghost use Rattle.hs_fold.specs.Shards.Setting.{Numbered, Setting, shard_in};

/// Catalogues that lists give have only blocks and roots of their shard, in order, and each entry
/// keeps them so.
pub fn catalogues_are_of_their_shards()
    ensures lists { (set : Setting) (lists : List Numbered) →
        AreMine set.shape.shards 0 (catalogues set 0 lists) }
    ensures kept { (set : Setting) (cs : List Catalogue) (deed : Deed)
        → length cs ≡ set.shape.shards → deed.shard < set.shape.shards
        → AreMine set.shape.shards 0 cs → AreMine set.shape.shards 0 (follow set cs deed) }
{}

/// An entry of a shard changes the store of all as what happens by it says, and so does a history
/// of entries of all shards.
pub fn histories_change_the_store()
    ensures entry { (set : Setting) (cs : List Catalogue) (deed : Deed)
        → length cs ≡ set.shape.shards → deed.shard < set.shape.shards
        → AreMine set.shape.shards 0 cs → store_of (follow set cs deed) ≡ happen_by (store_of cs)
        (happening_of (shard_in set deed.shard) (catalogue_at cs deed.shard) deed.entry) }
    ensures history { (set : Setting) (cs : List Catalogue) (deeds : List Deed)
        → length cs ≡ set.shape.shards → All (λ deed. deed.shard < set.shape.shards) deeds
        → AreMine set.shape.shards 0 cs →
        store_of (follow_all set cs deeds) ≡ happen_all (store_of cs) (happenings_along set cs deeds) }
{}

/// A shard's catalogue is what its own entries make of it, whatever comes between them.
pub fn shards_see_their_own()
    ensures own { (set : Setting) (cs : List Catalogue) (deeds : List Deed) (shard : ℕ)
        → length cs ≡ set.shape.shards → All (λ deed. deed.shard < set.shape.shards) deeds →
        catalogue_at (follow_all set cs deeds) shard
        ≡ apply_all (shard_in set shard) (catalogue_at cs shard) (entries_of shard deeds) }
{}
