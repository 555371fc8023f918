//! A journal that is one of deeds goes on as one.
ghost use Rattle.std.specs.Prelude.{◌≡◌, List, []};
ghost use Rattle.hs_answered.specs.Standing.{IsFolded, store_with};
ghost use Rattle.hs_core_words.specs.State.{Core};
ghost use Rattle.hs_deeds.specs.Bare.{bare_store};
ghost use Rattle.hs_deeds.specs.History.{HasTold, deeds_of};
ghost use Rattle.hs_deeds.specs.On.{AreUnanswered, DeedsOn, Whatever};
ghost use Rattle.hs_fold.specs.Runs.Facts.{Catalogue as Folded};
ghost use Rattle.hs_limits.specs.declared.limits.Limits.{Limits};
ghost use Rattle.hs_model.specs.Hollow.{hollow};
ghost use Rattle.hs_model.specs.Store.{Store};
ghost use Rattle.hs_standing.specs.Telling.{told_so_far};

/// The store of a core without data is that of any folds which its catalogues are, without theirs
/// (`bare`). A core that has told nothing has told deeds from there (`opens`); and so has one behind a
/// change that tells deeds (`goes`), and behind a client's line (`line`), from the same store on.
pub fn deeds_go_on()
    ensures bare { (core : Core) (cs : List Folded) → IsFolded core cs →
        bare_store core ≡ hollow (store_with cs core.sessions) }
    ensures opens { (limits : Limits) (core : Core) → told_so_far core ≡ [] →
        HasTold limits (bare_store core) core }
    ensures goes { (limits : Limits) (start : Store) (cs behind : List Folded) (old new : Core)
        → IsFolded old cs → IsFolded new behind → DeedsOn Whatever limits cs behind old new
        → HasTold limits start old → HasTold limits start new }
    ensures line { (limits : Limits) (start : Store) (cs behind : List Folded) (old new : Core)
        → IsFolded old cs → IsFolded new behind
        → DeedsOn (AreUnanswered old) limits cs behind old new → AreUnanswered old (deeds_of old)
        → HasTold limits start old → HasTold limits start new }
{}
