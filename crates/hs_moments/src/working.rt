//! What an event of a store of one copy a shard makes of its disks.
ghost use Rattle.std.specs.Prelude.{◌≡◌, ◌≢◌, ℕ, None, false, true};
ghost use Rattle.hs_core_words.specs.declared.event.Event.{Event};
ghost use Rattle.hs_core_words.specs.declared.event.Event.TheVariants as event;
ghost use Rattle.hs_core_words.specs.Step.{step};
ghost use Rattle.hs_desk.specs.declared.done.Done.{Done};
ghost use Rattle.hs_events.specs.Asked.{report_in};
ghost use Rattle.hs_events.specs.Course.{is_refused};
ghost use Rattle.hs_events.specs.Due.{is_answer};
ghost use Rattle.hs_events.specs.Sane.{IsSane, appended_of};
ghost use Rattle.hs_events.specs.Whole.{Whole, floor, step_whole};
ghost use Rattle.hs_moments.specs.Moments.{Grows};
ghost use Rattle.hs_moments.specs.WholeMachine.{whole_machine};
ghost use Rattle.hs_moments.specs.Working.{IsBehind};

/// An event that is no report lets each peer's list only grow, and so does a report of another peer:
/// also where the core ends with it.
pub fn lists_only_grow()
    ensures without_call { (c : Whole) (event : Event) (moment peer : ℕ) → IsSane c
        → report_in event ≡ None → is_refused (step event moment c.core).ended ≡ false
        → Grows whole_machine c (step_whole event moment c) peer }
    ensures beside { (c : Whole) (done : Done) (moment peer other : ℕ) → IsSane c
        → is_answer c.core peer done ≡ true → other ≢ peer
        → is_refused (step (event.Report peer done) moment c.core).ended ≡ false
        → Grows whole_machine c (step_whole (event.Report peer done) moment c) other }
{}

/// What stands unsealed on a peer's disk, and how much is sealed, changes by reports of that peer alone.
pub fn what_was_appended_stays()
    ensures without_call { (c : Whole) (event : Event) (moment peer : ℕ) → IsSane c
        → report_in event ≡ None → (step event moment c.core).ended ≡ None
        → (appended_of peer (step event moment c.core) ≡ appended_of peer c.core)
        × (floor (step_whole event moment c) peer ≡ floor c peer) }
    ensures beside { (c : Whole) (done : Done) (moment peer other : ℕ) → IsSane c
        → is_answer c.core peer done ≡ true → other ≢ peer
        → (step (event.Report peer done) moment c.core).ended ≡ None
        → (appended_of other (step (event.Report peer done) moment c.core) ≡ appended_of other c.core)
        × (floor (step_whole (event.Report peer done) moment c) other ≡ floor c other) }
{}

/// A report that answers a peer's first job tells what was done: an entry that was appended stands
/// unsealed, one that was sealed is so, and of a disk that failed nothing is left to say.
pub fn a_report_tells_what_was_done()
    ensures { (c : Whole) (done : Done) (moment peer : ℕ) → IsSane c
        → is_answer c.core peer done ≡ true
        → is_refused (step (event.Report peer done) moment c.core).ended ≡ false
        → IsBehind c (step_whole (event.Report peer done) moment c) peer done }
{}
