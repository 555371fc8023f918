//! Lines of tails.
ghost use Rattle.std.specs.Prelude.{ℕ, List, Option};
ghost use Rattle.hs_anatomy.specs.Strokes.{Stroke};
ghost use Rattle.hs_core_words.specs.declared.event.Event.{Event};
ghost use Rattle.hs_core_words.specs.State.{Core};
ghost use Rattle.hs_entry.specs.declared.entry.Entry.{Entry};
ghost use Rattle.hs_tails.specs.Tails.{AnswersNone, HasOpenLines, IsNew};

/// A stroke of which events are made leaves the lines of a tail open, where it answers none of them,
/// and the client's line that comes is new.
pub fn lines_of_a_tail_stay_open()
    ensures { (begun : Core) (event : Option Event) (old new : Core) (shard : ℕ) (tail : List Entry)
        → Stroke begun event old new → IsNew event begun → AnswersNone old new tail
        → HasOpenLines old shard tail → HasOpenLines new shard tail }
{}
