//! What a joining peer's disk may have beside, while a copying step runs.
ghost use Rattle.std.specs.Prelude.{◌≡◌, ℕ, Some};
ghost use Rattle.hs_copies.specs.Machine.{Copies};
ghost use Rattle.hs_copies.specs.Standing.{IsCopyingStep};
ghost use Rattle.hs_core_words.specs.Looking.{first_job};
ghost use Rattle.hs_core_words.specs.State.{Core};
ghost use Rattle.hs_desk.specs.declared.job.Job.TheVariants as job;
ghost use Rattle.hs_entry.specs.declared.entry.Entry.{Entry};
ghost use Rattle.hs_core_copies.specs.InStep.{IsInStep, IsOf, copies_in, no_line};

/// Where a peer's first job is to copy an entry the machine has it that its disk may have the next entry of the
/// lead's list beside its own; and if the step is broken off and the peer goes down, it may still.
pub fn a_copying_step_is_the_machines()
    ensures { (shard peer number from : ℕ) (core : Core) (copies : Copies Entry) (in_step : IsInStep shard core copies)
        → IsOf core.members.shape shard peer → first_job peer core ≡ Some (job.Copy from number)
        → IsCopyingStep no_line (copies_in shard in_step.sent core) copies peer }
{}
