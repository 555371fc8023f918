//! The plain store that catalogues in memory give.
ghost use Rattle.std.specs.Prelude.{◌≡◌, List, length, map};
ghost use Rattle.hs_fold.specs.Runs.Facts.{Catalogue as Folded, plain};
ghost use Rattle.hs_fold.specs.Runs.Own.{AreOwn};
ghost use Rattle.hs_fold.specs.Shards.Opened.{store_of};
ghost use Rattle.hs_limits.specs.declared.shape.Shape.{Shape};
ghost use Rattle.hs_memory.specs.Whole.{add_folds};
ghost use Rattle.hs_model.specs.Hollow.{hollow};
ghost use Rattle.hs_model.specs.Store.{empty_store};

/// The catalogues of all shards, put one after another into a plain store that has nothing, give the
/// plain store of their folds, but for the blocks' bytes.
pub fn catalogues_give_the_plain_store()
    ensures { (shape : Shape) (cs : List Folded) → AreOwn shape.shards 0 cs →
        add_folds shape 0 cs (empty_store (length cs)) ≡ hollow (store_of (map plain cs)) }
{}
