//! What an operation is answered whose session has another.
ghost use Rattle.std.specs.Prelude.{◌≡◌, ℕ, IsSome, List, Some};
ghost use Rattle.hs_answered.specs.Judged.{IsBusy};
ghost use Rattle.hs_core_words.specs.Operating.{begin_line, busy_line};
ghost use Rattle.hs_core_words.specs.State.{Core};
ghost use Rattle.hs_journal.specs.Order.{IsOpen, session_of};
ghost use Rattle.hs_model.specs.declared.op.Op.{Op};
ghost use Rattle.hs_tokens.specs.Seats.{seat_of};

/// An operation of an open session that has another without an answer is refused at its own line as
/// busy with that one, and neither a session nor a catalogue changes; but for one that opens a session.
pub fn a_busy_session_is_told()
    ensures { (core : Core) (line other : ℕ) (o : Op) (name : List ℕ)
        → session_of (Some o) ≡ Some name → (IsOpen (Some o) → ⊥) → IsSome (seat_of name core.sessions)
        → busy_line o core ≡ Some other → IsBusy core (begin_line line o core) line other o }
{}
