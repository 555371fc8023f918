//! What follows from the words of the promise.
ghost use Rattle.std.specs.Prelude.{◌≡◌, ◌+◌, ◌-◌, ◌^◌, ◌<◌, ℕ, true, List, [], ◌∷◌, length, Option, Some, None, All};
ghost use Rattle.hs_core_words.specs.declared.event.Event.{Event};
ghost use Rattle.hs_core_words.specs.State.{Core};
ghost use Rattle.hs_desk.specs.declared.fault.CoreFault.{CoreFault};
ghost use Rattle.hs_desk.specs.declared.fault.CoreFault.TheVariants as fault;
ghost use Rattle.hs_ports.specs.Fault.{HasRisen};
ghost use Rattle.hs_side.specs.declared.header.Header.{Header};
ghost use Rattle.hs_promise.specs.declared.status.Status.{Status};
ghost use Rattle.hs_promise.specs.declared.status.Status.TheVariants as status;
ghost use Rattle.hs_promise.specs.Causes.{Cause};
ghost use Rattle.hs_promise.specs.Ending.{ending_of};
ghost use Rattle.hs_promise.specs.Ends.{HasEnded};
ghost use Rattle.hs_promise.specs.Lost.{LostCause};
ghost use Rattle.hs_events.specs.Commands.{BeginsWith};
ghost use Rattle.hs_events.specs.declared.due.Due.{Due};
ghost use Rattle.hs_events.specs.Due.{Events};
ghost use Rattle.hs_ports.specs.Objects.{Objects, KeepsTime};
ghost use Rattle.hs_script.specs.Scripts.{input_limit};
ghost use Rattle.hs_promise.specs.Machine.{EndsAs, NeverOpened};
ghost use Rattle.hs_promise.specs.Run.{Ran, Script};

/// Where a run is done all lines were begun, and nothing is left of the script.
pub fn done_is_the_end()
    ensures lines { (lines : List (List ℕ)) (line : ℕ) (taken left : List ℕ) → HasEnded status.Done lines line taken left → line ≡ length lines }
    ensures left { (lines : List (List ℕ)) (line : ℕ) (taken left : List ℕ) → HasEnded status.Done lines line taken left → left ≡ [] }
{}

/// Where a disk is of another store, nothing of the script was read, and nothing answered.
pub fn another_store_is_found_first()
    ensures line { (peer : ℕ) (found : Header) (lines : List (List ℕ)) (line : ℕ) (taken left : List ℕ) → HasEnded (status.WrongShape peer found) lines line taken left → line ≡ 0 }
    ensures taken { (peer : ℕ) (found : Header) (lines : List (List ℕ)) (line : ℕ) (taken left : List ℕ) → HasEnded (status.WrongShape peer found) lines line taken left → taken ≡ [] }
    ensures journal { (S : Script) (r : Ran) (peer : ℕ) (found : Header) → Cause S r (status.WrongShape peer found) → r.journal ≡ [] }
{}

/// The source and the sink are blamed only where they failed, and a shard counts as lost only where
/// none of its peers counts as good.
pub fn faults_have_their_causes()
    ensures read { (S : Script) (r : Ran) → Cause S r status.ReadFault → HasRisen r.old.source_faults r.new.source_faults }
    ensures write { (S : Script) (r : Ran) → Cause S r status.WriteFault → HasRisen r.old.sink_faults r.new.sink_faults }
    ensures lost { (S : Script) (r : Ran) (shard : ℕ) → Cause S r (status.ShardLost shard) → LostCause S r shard }
{}

/// Entries are refused only where the journal is full.
pub fn only_a_full_journal_refuses()
    ensures done { (S : Script) (r : Ran) → Cause S r status.Done → r.refused ≡ [] }
    ensures wanting { (S : Script) (r : Ran) → Cause S r status.NoMemory → r.refused ≡ [] }
    ensures write { (S : Script) (r : Ran) → Cause S r status.WriteFault → r.refused ≡ [] }
{}

/// A core that is full or has lost a shard ends the run with that status, unless the sink failed or
/// memory was wanting.
pub fn the_end_of_the_core_is_told()
    ensures done { (ended : Option CoreFault) → EndsAs (ending_of status.Done) ended → ended ≡ None }
    ensures full { (ended : Option CoreFault) → EndsAs (ending_of status.OpsFull) ended → ended ≡ Some fault.OpsFull }
    ensures lost { (shard : ℕ) (ended : Option CoreFault) → EndsAs (ending_of (status.ShardLost shard)) ended → ended ≡ Some (fault.ShardLost shard) }
    ensures closed { (peer : ℕ) (found : Header) (ended : Option CoreFault) → EndsAs (ending_of (status.WrongShape peer found)) ended → ⊥ }
{}

/// A run of a script never ends as only a command ends that runs none: such an end has no cause there,
/// comes behind no line, and is not the machine's.
#[tactic(auto, using(crate::proofs::UnscriptedLemmas::no_cause, crate::proofs::UnscriptedLemmas::no_end))]
pub fn a_script_ends_as_no_other_command()
    ensures cause { (S : Script) (r : Ran) (st : Status) → (ending_of st).unscripted ≡ true → Cause S r st → ⊥ }
    ensures ended { (st : Status) (lines : List (List ℕ)) (line : ℕ) (taken left : List ℕ) → (ending_of st).unscripted ≡ true → HasEnded st lines line taken left → ⊥ }
    ensures machine { (st : Status) (ended : Option CoreFault) → (ending_of st).unscripted ≡ true → EndsAs (ending_of st) ended → ⊥ }
    ensures never { (r : Ran) → (ending_of r.ending).unscripted ≡ true → NeverOpened r → ⊥ }
{}
