//! No disk fails a call of which nothing is told.
ghost use Rattle.std.specs.Prelude.{◌≡◌, ℕ, false, true};
ghost use Rattle.hs_events.specs.Found.{first_core, starts_good};
ghost use Rattle.hs_events.specs.Reports.{failures};
ghost use Rattle.hs_ports.specs.Objects.{faults_at};
ghost use Rattle.hs_promise.specs.Calm.{RisesAreTold};
ghost use Rattle.hs_promise.specs.Ending.{ending_of};
ghost use Rattle.hs_promise.specs.Machine.{NeverOpened, Went};
ghost use Rattle.hs_promise.specs.Run.{Ran, Script};
ghost use Rattle.hs_promise.specs.Story.{Story, all_events};

/// Where a store was opened, and all that was answered was put, the count of a disk stands whose peer is
/// not told to be down, in the journal or in what found it full: as a core opens each peer that is not
/// good is told of, and later each failure that is reported. So it is where the count of a disk stands
/// whose peer was good as the core opened, and of which no failure is reported (`went`), as hs_run shows
/// of its disks; and where no core was opened (`never`).
pub fn each_rise_is_told()
    ensures went { (S : Script) (r : Ran) (story : Story) → Went S r story
        → ((ending_of r.ending).short ≡ false → (disk : ℕ)
        → starts_good story.found disk ≡ true
        → failures true disk (first_core S.set story.found) (all_events story) ≡ 0
        → faults_at r.new.disk_faults disk ≡ faults_at r.old.disk_faults disk) →
        RisesAreTold S r }
    ensures never { (S : Script) (r : Ran) → NeverOpened r → RisesAreTold S r }
{}
