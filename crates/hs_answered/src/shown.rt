//! What operations see of the core is its plain store.
ghost use Rattle.std.specs.Prelude.{◌≡◌, List, Some};
ghost use Rattle.hs_answered.specs.Standing.{IsAddressed, IsFolded, store_with};
ghost use Rattle.hs_core_words.specs.Looking.{shape_of};
ghost use Rattle.hs_core_words.specs.Seeing.{pointers_for, view_for};
ghost use Rattle.hs_core_words.specs.State.{Core};
ghost use Rattle.hs_fold.specs.Runs.Facts.{Catalogue as Folded};
ghost use Rattle.hs_limits.specs.declared.address.Address.{Address};
ghost use Rattle.hs_model.specs.declared.op.Op.{Op};
ghost use Rattle.hs_model.specs.Hollow.{looks_at};
ghost use Rattle.hs_model.specs.Judge.{pointers_at};
ghost use Rattle.hs_ops.specs.Speaking.{judging_shard};
ghost use Rattle.hs_shown.specs.Showing.{Shows};

/// The view that the core makes for an operation at the shard that judges it shows the plain store of
/// the catalogues and sessions, and the pointers that it finds are those of the store's block.
pub fn views_show_the_store()
    ensures shown { (cs : List Folded) (core : Core) (o : Op) → IsFolded core cs → IsAddressed core.sessions o →
        Shows core.limits (store_with cs core.sessions) o
        (view_for (judging_shard (shape_of core).shards core.sessions o) o core) }
    ensures pointers { (cs : List Folded) (core : Core) (o : Op) (a : Address)
        → IsFolded core cs → IsAddressed core.sessions o → looks_at (store_with cs core.sessions) o ≡ Some a →
        pointers_for (judging_shard (shape_of core).shards core.sessions o) o core
        ≡ pointers_at (store_with cs core.sessions) a }
{}
