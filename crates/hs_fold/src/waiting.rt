//! Entries that wait, and what they leave.
ghost use Rattle.std.specs.Prelude.{◌≡◌, ◌<◌, ℕ, List, length};
ghost use Rattle.hs_laws.specs.Valid.{IsValid};
ghost use Rattle.hs_entry.specs.declared.entry.Entry.{Entry};
ghost use Rattle.hs_fold.specs.Lawful.{Deed};
ghost use Rattle.hs_fold.specs.Shards.Catalogue.{Catalogue};
ghost use Rattle.hs_fold.specs.Shards.Fits.{MayCome};
ghost use Rattle.hs_fold.specs.Shards.History.{AreLawful, follow};
ghost use Rattle.hs_fold.specs.Shards.Mine.{AreMine};
ghost use Rattle.hs_fold.specs.Shards.Opened.{catalogues, store_of};
ghost use Rattle.hs_fold.specs.Shards.Parted.{MayAllWait, NamesUpTo, Parted, done_lists, whole_lists};
ghost use Rattle.hs_fold.specs.Shards.Setting.{Setting};

/// Behind an entry that may come a valid store is valid, and what else may come may come still, of
/// whatever shard. A Mark is said to wait only for a block whose entry took effect: `front` tells up
/// to which number that is so of each shard.
pub fn waiting_entries_may_still_come()
    ensures valid { (set : Setting) (cs : List Catalogue) (deed : Deed)
        → length cs ≡ set.shape.shards → deed.shard < set.shape.shards
        → AreMine set.shape.shards 0 cs → IsValid (store_of cs) → MayCome cs deed.shard deed.entry →
        IsValid (store_of (follow set cs deed)) }
    ensures still { (set : Setting) (front : ℕ → ℕ) (cs : List Catalogue) (deed : Deed)
        (shard : ℕ) (other : Entry)
        → length cs ≡ set.shape.shards → deed.shard < set.shape.shards
        → AreMine set.shape.shards 0 cs → IsValid (store_of cs) → MayCome cs deed.shard deed.entry
        → front deed.shard < deed.number → NamesUpTo (front shard) other → MayCome cs shard other →
        MayCome (follow set cs deed) shard other }
{}

/// Behind a valid store and a lawful history, what may wait of all shards leaves both so.
pub fn waiting_lists_are_lawful()
    ensures valid { (set : Setting) (lists : List Parted) → length lists ≡ set.shape.shards
        → MayAllWait (catalogues set 0 (done_lists lists)) 0 lists
        → IsValid (store_of (catalogues set 0 (done_lists lists))) →
        IsValid (store_of (catalogues set 0 (whole_lists lists))) }
    ensures lawful { (set : Setting) (lists : List Parted) → length lists ≡ set.shape.shards
        → MayAllWait (catalogues set 0 (done_lists lists)) 0 lists
        → IsValid (store_of (catalogues set 0 (done_lists lists)))
        → AreLawful set (done_lists lists) (catalogues set 0 (done_lists lists)) →
        AreLawful set (whole_lists lists) (catalogues set 0 (whole_lists lists)) }
{}
