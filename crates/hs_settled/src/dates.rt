//! The line of each note that a peer is down.
ghost use Rattle.std.specs.Prelude.{Option};
ghost use Rattle.hs_journal.specs.Telling.{AreDated};
ghost use Rattle.hs_promise.specs.Machine.{WentAs};
ghost use Rattle.hs_promise.specs.Run.{Ran, Script};
ghost use Rattle.hs_promise.specs.Story.{Story};

/// A note that a peer is down has the line of the last event that had one: before it stands no
/// entry of a later line, and behind it none of this line or an earlier one that was answered in
/// its own event.
pub fn notes_have_their_line()
    ensures { (S : Script) (r : Ran) (how : Option Story) → WentAs S r how →
        AreDated S.commands r.journal }
{}
