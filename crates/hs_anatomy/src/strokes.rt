//! Acts are made of strokes.
ghost use Rattle.std.specs.Prelude.{Option};
ghost use Rattle.hs_anatomy.specs.Acts.{Acts};
ghost use Rattle.hs_anatomy.specs.Strokes.{Strokes};
ghost use Rattle.hs_core_words.specs.declared.event.Event.{Event};
ghost use Rattle.hs_core_words.specs.State.{Core};

/// What acts make of a core, strokes make of it, one after another.
pub fn acts_are_made_of_strokes()
    ensures { (begun : Core) (event : Option Event) (core : Core) → Acts begun event core →
        Strokes begun event core }
{}
