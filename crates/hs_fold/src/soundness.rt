//! Sound lists of several shards stay sound.
ghost use Rattle.std.specs.Prelude.{◌≡◌, ◌<◌, ◌≤◌, [], List, All, length, replicate};
ghost use Rattle.hs_fold.specs.Runs.Sound.{AreSound as SoundWithRuns};
ghost use Rattle.hs_fold.specs.Shards.Catalogue.{Catalogue};
ghost use Rattle.hs_fold.specs.Shards.Opened.{catalogues};
ghost use Rattle.hs_fold.specs.Shards.Parted.{MayAllWait, Parted, done_lists, whole_lists};
ghost use Rattle.hs_fold.specs.Shards.Setting.{Setting};
ghost use Rattle.hs_fold.specs.Shards.Sound.{AreSound, HasRisingViews, most_records};

/// The lists of blank disks are sound, without deletion and with it. Without it sound ones stay so with
/// what may wait behind them, as long as no shard has more root records than it takes and no view falls.
pub fn lists_stay_sound()
    ensures blank { (set : Setting) → 0 < set.shape.shards →
        AreSound set (replicate set.shape.shards []) }
    ensures blank_with_runs { (set : Setting) → 0 < set.shape.shards →
        SoundWithRuns set (replicate set.shape.shards []) }
    ensures behind { (set : Setting) (lists : List Parted) → length lists ≡ set.shape.shards
        → AreSound set (done_lists lists)
        → MayAllWait (catalogues set 0 (done_lists lists)) 0 lists
        → All (λ (c : Catalogue). length c.roots ≤ most_records) (catalogues set 0 (whole_lists lists))
        → All HasRisingViews (whole_lists lists) → AreSound set (whole_lists lists) }
{}
