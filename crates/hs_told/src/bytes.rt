//! What does not rest on the bytes that a report tells.
ghost use Rattle.std.specs.Prelude.{◌≡◌, ℕ, List};
ghost use Rattle.hs_core_words.specs.declared.event.Event.TheVariants as event;
ghost use Rattle.hs_core_words.specs.State.{Core};
ghost use Rattle.hs_core_words.specs.Step.{step};
ghost use Rattle.hs_desk.specs.declared.done.Done.TheVariants as done;

/// Whatever bytes a report tells of an entry, sessions and catalogues are the same after it: of
/// these the store of the core is made.
pub fn the_store_rests_on_no_bytes()
    ensures sessions { (peer number moment : ℕ) (one two : List ℕ) (core : Core)
        → (step (event.Report peer (done.Bytes number one)) moment core).sessions
        ≡ (step (event.Report peer (done.Bytes number two)) moment core).sessions }
    ensures catalogues { (peer number moment : ℕ) (one two : List ℕ) (core : Core)
        → (step (event.Report peer (done.Bytes number one)) moment core).catalogues
        ≡ (step (event.Report peer (done.Bytes number two)) moment core).catalogues }
{}
