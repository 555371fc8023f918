//! What a journal of deeds counts.
ghost use Rattle.std.specs.Prelude.{◌≡◌, ◌≢◌, ◌+◌, ◌<◌, ◌≤◌, ℕ, List, length, slice_index};
ghost use Rattle.hs_deeds.specs.Told.{store_after};
ghost use Rattle.hs_limits.specs.declared.limits.Limits.{Limits};
ghost use Rattle.hs_loaded.specs.Counts.{KeepNewKeys, dropped_in, entered_in, retained_count};
ghost use Rattle.hs_loaded.specs.Counts.{rooted_in};
ghost use Rattle.hs_model.specs.declared.deed.Deed.TheVariants as deed;
ghost use Rattle.hs_model.specs.declared.op.Asked.TheVariants as asked;
ghost use Rattle.hs_model.specs.declared.reply.Reply.TheVariants as reply;
ghost use Rattle.hs_model.specs.Deeds.{AreDeeds, DeedEntry, IsDeed};
ghost use Rattle.hs_model.specs.Store.{Store};

/// Where no key is kept that is retained, the roots that a journal of deeds leaves are those that there
/// were, with one more for each that it keeps and one less for each that it drops.
pub fn roots_are_those_kept_less_those_dropped()
    ensures { (limits : Limits) (s : Store) (before entries : List DeedEntry)
        → AreDeeds limits s before entries → KeepNewKeys s entries →
        retained_count (store_after s entries) + dropped_in entries
        ≡ retained_count s + rooted_in entries }
{}

/// The epoch of a shard rises by one for each deed that enters it, and by nothing else (`rises`). Where
/// shard 0 has swept its epoch, and that is below the limit, no deletion is refused, but as busy
/// (`runs`).
pub fn epochs_rise_by_deletions()
    ensures rises { (s : Store) (shard : ℕ) (entries : List DeedEntry) → shard < length s.epochs →
        slice_index (store_after s entries).epochs shard
        ≡ slice_index s.epochs shard + entered_in shard entries }
    ensures runs { (limits : Limits) (s : Store) (before : List DeedEntry) (e : DeedEntry)
        → IsDeed limits s before e → e.deed ≡ deed.Refused asked.Delete
        → ((line : ℕ) → e.reply ≢ reply.Busy line)
        → slice_index s.epochs 0 ≤ slice_index s.swept 0
        → slice_index s.epochs 0 < limits.epochs → ⊥ }
{}
