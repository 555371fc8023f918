//! Notes end a run.
ghost use Rattle.std.specs.Prelude.{◌≡◌, Option};
ghost use Rattle.hs_promise.specs.Lost.{NotesEnd};
ghost use Rattle.hs_promise.specs.Machine.{WentAs};
ghost use Rattle.hs_promise.specs.Run.{Ran, Script};
ghost use Rattle.hs_promise.specs.Story.{Story};

/// With one copy a shard a run ends with the event that tells that a peer is down: where its last line
/// was gone past none was told so, and behind such a note stand only others, of the same line.
pub fn a_note_ends_the_run()
    ensures { (S : Script) (r : Ran) (how : Option Story) → S.set.shape.copies ≡ 1
        → WentAs S r how → NotesEnd r }
{}
