//! What the text of an audit says of the store.
ghost use Rattle.std.specs.Prelude.{◌≡◌, List, None, Contains};
ghost use Rattle.hs_audit.specs.Laws.{AreMissing, EndsOk};
ghost use Rattle.hs_audit.specs.Missing.{missing};
ghost use Rattle.hs_audit.specs.Text.{report};
ghost use Rattle.hs_fold.specs.Runs.Opened.{catalogues, store_of};
ghost use Rattle.hs_fold.specs.Runs.Sound.{AreSound};
ghost use Rattle.hs_fold.specs.Shards.Setting.{Numbered, Setting};
ghost use Rattle.hs_laws.specs.Reached.{IsWhole};
ghost use Rattle.hs_model.specs.Store.{Root};

/// What an audit tells as missing of the store of some lists, one for each shard, is exactly what a
/// root that is not dropped reaches and what is not there.
pub fn what_is_missing_is_told()
    ensures { (set : Setting) (lists : List Numbered) →
        let s = store_of (catalogues set 0 lists) in AreMissing s (missing s) }
{}

/// Where the audit of some lists, one for each shard, ends with `audit ok`, whatever they are, the
/// whole tree of each root that is not dropped is there. The audit of sound lists ends so.
pub fn an_ok_audit_finds_each_tree_whole()
    ensures whole { (set : Setting) (lists : List Numbered) (root : Root) →
        let s = store_of (catalogues set 0 lists) in
        EndsOk (report s) → Contains s.roots root → root.dropped ≡ None → IsWhole s root.address }
    ensures sound { (set : Setting) (lists : List Numbered) → AreSound set lists →
        EndsOk (report (store_of (catalogues set 0 lists))) }
{}
