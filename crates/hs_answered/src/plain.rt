//! The plain store that a core gives.
ghost use Rattle.std.specs.Prelude.{◌≡◌, List};
ghost use Rattle.hs_answered.specs.Standing.{IsFolded, forget_all};
ghost use Rattle.hs_core_words.specs.Plain.{plain_store};
ghost use Rattle.hs_core_words.specs.State.{Core};
ghost use Rattle.hs_fold.specs.Opened.{chosen_each};
ghost use Rattle.hs_fold.specs.Runs.Facts.{Catalogue as Folded};
ghost use Rattle.hs_fold.specs.Runs.Opened.{catalogues, opened, store_of};
ghost use Rattle.hs_fold.specs.Shards.Setting.{Numbered, Setting};
ghost use Rattle.hs_model.specs.Hollow.{hollow};

/// A core gives the plain store of the folds which its catalogues are, but for the blocks' bytes. Where
/// they are the folds of the lists that count, that is the store at which the lists open.
pub fn a_core_gives_the_plain_store()
    ensures folded { (cs : List Folded) (core : Core) → IsFolded core cs
        → plain_store core ≡ hollow (store_of cs) }
    ensures opened { (set : Setting) (lists : List Numbered) (core : Core)
        → core.catalogues ≡ forget_all set.shape 0
        (catalogues set 0 (chosen_each set.shape.shards set.shape.copies lists))
        → plain_store core ≡ hollow (opened set lists) }
{}
