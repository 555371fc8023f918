//! Lines that are answered in their own event.
ghost use Rattle.std.specs.Prelude.{◌≡◌, ℕ, IfSome, None, Option};
ghost use Rattle.hs_settled.specs.Printing.{FailsInText};
ghost use Rattle.hs_journal.specs.Events.{client_op};
ghost use Rattle.hs_promise.specs.Completes.{HasPrompt};
ghost use Rattle.hs_promise.specs.Machine.{WentAs};
ghost use Rattle.hs_promise.specs.Run.{Ran, Script};
ghost use Rattle.hs_promise.specs.Story.{Story};

/// Each line that was begun and is answered in its own event has its entry in the journal, unless
/// it is the last one and memory was wanting or the journal full.
pub fn a_prompt_line_has_its_entry()
    ensures { (S : Script) (r : Ran) (how : Option Story) → client_op (S.commands 0) ≡ None
        → WentAs S r how → IfSome how (FailsInText S r) → (line : ℕ) → HasPrompt S r line }
{}
