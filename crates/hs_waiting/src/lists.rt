//! What waits of all lists.
ghost use Rattle.std.specs.Prelude.{◌≡◌, ◌<◌, ℕ, List, length, All};
ghost use Rattle.hs_limits.specs.Shape.{IsShape};
ghost use Rattle.hs_laws.specs.Valid.{IsValid};
ghost use Rattle.hs_fold.specs.Shards.Parted.{Parted, done_lists, whole_lists};
ghost use Rattle.hs_fold.specs.Shards.Setting.{Setting};
ghost use Rattle.hs_fold.specs.Runs.History.{AreLawful, no_entries};
ghost use Rattle.hs_fold.specs.Runs.Opened.{catalogues, store_of};
ghost use Rattle.hs_fold.specs.Runs.Sound.{AreSent, HasRoom};
ghost use Rattle.hs_joint.specs.Along.{KeepFewRecords};
ghost use Rattle.hs_waiting.specs.Lists.{MayAllWait, pending_deeds};

/// Behind lists that took effect and are lawful, all that waits of all shards leaves them lawful, their
/// store valid, room in each, and each logged Got one of its sender's last two rounds. This is the run
/// over all pending entries, with runs in progress.
pub fn waiting_lists_are_lawful_with_runs()
    ensures lawful { (set : Setting) (lists : List Parted)
        (lawful : AreLawful set (done_lists lists) (catalogues set 0 (done_lists lists)))
        → IsShape set.shape → length lists ≡ set.shape.shards
        → KeepFewRecords set (no_entries set) lawful.history
        → MayAllWait (catalogues set 0 (done_lists lists)) 0 lists
        → KeepFewRecords set (catalogues set 0 (done_lists lists)) (pending_deeds 0 lists) →
        AreLawful set (whole_lists lists) (catalogues set 0 (whole_lists lists)) }
    ensures valid { (set : Setting) (lists : List Parted)
        (lawful : AreLawful set (done_lists lists) (catalogues set 0 (done_lists lists)))
        → IsShape set.shape → length lists ≡ set.shape.shards
        → KeepFewRecords set (no_entries set) lawful.history
        → MayAllWait (catalogues set 0 (done_lists lists)) 0 lists
        → KeepFewRecords set (catalogues set 0 (done_lists lists)) (pending_deeds 0 lists) →
        IsValid (store_of (catalogues set 0 (whole_lists lists))) }
    ensures room { (set : Setting) (lists : List Parted)
        (lawful : AreLawful set (done_lists lists) (catalogues set 0 (done_lists lists)))
        → IsShape set.shape → length lists ≡ set.shape.shards
        → KeepFewRecords set (no_entries set) lawful.history
        → MayAllWait (catalogues set 0 (done_lists lists)) 0 lists
        → KeepFewRecords set (catalogues set 0 (done_lists lists)) (pending_deeds 0 lists) →
        All HasRoom (catalogues set 0 (whole_lists lists)) }
    ensures sent { (set : Setting) (lists : List Parted)
        (lawful : AreLawful set (done_lists lists) (catalogues set 0 (done_lists lists)))
        → IsShape set.shape → length lists ≡ set.shape.shards
        → KeepFewRecords set (no_entries set) lawful.history
        → MayAllWait (catalogues set 0 (done_lists lists)) 0 lists
        → KeepFewRecords set (catalogues set 0 (done_lists lists)) (pending_deeds 0 lists) →
        (shard : ℕ) → shard < set.shape.shards → AreSent (catalogues set 0 (whole_lists lists)) shard }
{}
