//! Lists with what waits behind them.
ghost use Rattle.std.specs.Prelude.{[], ℕ, ◌<◌, List, replicate};
ghost use Rattle.hs_limits.specs.Shape.{IsShape};
ghost use Rattle.hs_fold.specs.Shards.Parted.{Parted, done_lists, whole_lists};
ghost use Rattle.hs_fold.specs.Shards.Setting.{Setting};
ghost use Rattle.hs_fold.specs.Runs.History.{AreLawful, no_entries};
ghost use Rattle.hs_fold.specs.Runs.Opened.{catalogues};
ghost use Rattle.hs_fold.specs.Runs.Sound.{AreSound};
ghost use Rattle.hs_joint.specs.Along.{KeepFewRecords};
ghost use Rattle.hs_sound.specs.Stay.{AreSoundAlong, MayStaySound};

/// Behind lists that took effect and are lawful all that waits of all shards leaves the whole lists
/// sound, with runs in progress. So the lists of blank disks are sound, and what stop after stop leaves
/// of sound ones is sound again. Root records and views are premises: no shard has more records than
/// it takes, and no view of a list falls.
pub fn waiting_lists_are_sound_with_runs()
    ensures behind { (set : Setting) (lists : List Parted)
        (lawful : AreLawful set (done_lists lists) (catalogues set 0 (done_lists lists)))
        → IsShape set.shape → KeepFewRecords set (no_entries set) lawful.history
        → MayStaySound set lists →
        AreSound set (whole_lists lists) }
    ensures blank { (set : Setting) → 0 < set.shape.shards →
        AreSoundAlong set (replicate set.shape.shards []) }
    ensures again { (set : Setting) (lists : List Parted)
        → IsShape set.shape → AreSoundAlong set (done_lists lists) → MayStaySound set lists →
        AreSoundAlong set (whole_lists lists) }
{}
