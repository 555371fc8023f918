//! The order of a journal.
ghost use Rattle.std.specs.Prelude.{◌≡◌, None, Option};
ghost use Rattle.hs_journal.specs.Events.{client_op};
ghost use Rattle.hs_journal.specs.Order.{IsOrdered};
ghost use Rattle.hs_promise.specs.Machine.{WentAs};
ghost use Rattle.hs_promise.specs.Run.{Ran, Script};
ghost use Rattle.hs_promise.specs.Story.{Story};

/// The entries of a run stand in the order of a journal, whatever its disks hold: at most one of a line,
/// those of a session one after another, and what is answered at once before all later lines.
pub fn a_journal_is_in_order()
    ensures { (S : Script) (r : Ran) (how : Option Story) → client_op (S.commands 0) ≡ None
        → WentAs S r how → IsOrdered S.commands r.journal }
{}
