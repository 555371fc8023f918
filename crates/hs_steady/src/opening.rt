//! The lists with which a store opens.
ghost use Rattle.std.specs.Prelude.{◌≡◌, None};
ghost use Rattle.hs_cluster.specs.Opens.{OpensLists};
ghost use Rattle.hs_events.specs.Found.{Found, first_core};
ghost use Rattle.hs_events.specs.Whole.{open_whole};
ghost use Rattle.hs_fold.specs.Shards.Setting.{Setting};
ghost use Rattle.hs_whole_copies.specs.Opening.{MayOpenWhole};

/// Where a core opens, and does not end at once, it has the lists that its shards opened with, as hs_cluster asks of it
/// before the first turn: what is told of a log is that of a peer that started as good, with the list that its shard
/// opens with, all of it sealed, and nothing waits there.
pub fn what_opens_has_its_lists()
    ensures { (set : Setting) (found : Found) → MayOpenWhole set found → (first_core set found).ended ≡ None
        → OpensLists set found (open_whole set found) }
{}
