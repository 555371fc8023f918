//! Lists stand at what is pending on what took effect.
ghost use Rattle.std.specs.Prelude.{◌≡◌, ◌<◌, ℕ, List, All, length};
ghost use Rattle.hs_model.specs.Store.{Store, reborn};
ghost use Rattle.hs_fold.specs.Lawful.{Deed, list_at};
ghost use Rattle.hs_fold.specs.Prefix.{IsNumbered};
ghost use Rattle.hs_fold.specs.Shards.Happening.{AreLegal, happen_all, happenings};
ghost use Rattle.hs_fold.specs.Shards.History.{entries_of, happenings_along};
ghost use Rattle.hs_fold.specs.Shards.Opened.{catalogues, store_of};
ghost use Rattle.hs_fold.specs.Shards.Parted.{Parted, back_at, behind_happenings, done_lists, whole_lists};
ghost use Rattle.hs_fold.specs.Shards.Pending.{pending};
ghost use Rattle.hs_fold.specs.Shards.Setting.{Setting};

/// The lists of all shards stand at the store of what took effect and then what happens by the rest,
/// shard by shard, or in any other order that keeps each shard's entries in theirs.
pub fn lists_stand_at_what_is_behind()
    ensures by_shard { (set : Setting) (lists : List Parted) → length lists ≡ set.shape.shards →
        store_of (catalogues set 0 (whole_lists lists))
        ≡ happen_all (store_of (catalogues set 0 (done_lists lists))) (behind_happenings set 0 lists) }
    ensures any_order { (set : Setting) (lists : List Parted) (deeds : List Deed)
        → length lists ≡ set.shape.shards → All (λ deed. deed.shard < set.shape.shards) deeds
        → ((shard : ℕ) → shard < length lists → entries_of shard deeds ≡ back_at lists shard) →
        store_of (catalogues set 0 (whole_lists lists))
        ≡ happen_all (store_of (catalogues set 0 (done_lists lists)))
        (happenings_along set (catalogues set 0 (done_lists lists)) deeds) }
    // of numbered lists this is what is pending where each took effect up to such a number
    ensures pending { (set : Setting) (lists : List Parted) (front : ℕ → ℕ)
        → ((shard : ℕ) → shard < length lists → IsNumbered (list_at (whole_lists lists) shard)
        × (front shard ≡ length (list_at (done_lists lists) shard))) →
        happenings (pending set front 0 (whole_lists lists)) ≡ behind_happenings set 0 lists }
    // without runs no inner event is among it
    ensures legal { (set : Setting) (lists : List Parted) (s : Store) →
        AreLegal s (behind_happenings set 0 lists) }
    // and it leaves the sessions: a stop behind it leaves what it makes of what a stop before it leaves
    ensures left { (set : Setting) (lists : List Parted) (s : Store) →
        reborn (happen_all s (behind_happenings set 0 lists))
        ≡ happen_all (reborn s) (behind_happenings set 0 lists) }
{}
