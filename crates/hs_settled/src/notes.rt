//! The cause of each note that a peer is down.
ghost use Rattle.std.specs.Prelude.{◌≡◌, ◌+◌, ◌<◌, ◌≤◌, ℕ, None, false, true};
ghost use Rattle.hs_events.specs.Found.{first_core, starts_good};
ghost use Rattle.hs_events.specs.Reports.{failures};
ghost use Rattle.hs_events.specs.Taken.{peer_count};
ghost use Rattle.hs_ports.specs.Objects.{faults_at};
ghost use Rattle.hs_promise.specs.Found.{IsReadAs};
ghost use Rattle.hs_promise.specs.Lost.{NotesCause};
ghost use Rattle.hs_promise.specs.Machine.{NeverOpened, Went, loss_count};
ghost use Rattle.hs_promise.specs.Run.{DiskRose, Ran, Script};
ghost use Rattle.hs_promise.specs.Story.{Story, all_events};
ghost use Rattle.hs_settled.specs.Opened.{IsAsideAs};

/// Of a disk that tells its contents there are at most so many notes as its count rose by, and one more
/// where its peer was set aside since its sides are no log, or since it was not yet made equal to a log
/// that was lost. So it is where each log is that of its disk or its disk failed, and counts rose by what
/// was lost before the core opened, and, where it went on, by all failures that it was told of
/// (`opened`), with more copies than one where, as the core goes on, of each peer that was not good its disk
/// shows why, and opening set it aside; and where no core was opened (`never`).
pub fn each_note_has_its_cause()
    ensures opened { (S : Script) (r : Ran) (story : Story) → Went S r story
        → ((peer : ℕ) → peer < peer_count S.set.shape → IsReadAs r story peer)
        → ((disk : ℕ) → DiskRose r (loss_count story disk) disk)
        → ((first_core S.set story.found).ended ≡ None → (disk : ℕ) → DiskRose r
        (failures true disk (first_core S.set story.found) (all_events story)
        + loss_count story disk) disk)
        → ((S.set.shape.copies ≡ 1 → ⊥) → (first_core S.set story.found).ended ≡ None
        → (peer : ℕ) → peer < peer_count S.set.shape
        → starts_good story.found peer ≡ false → IsAsideAs S r story peer) →
        NotesCause S r }
    ensures never { (S : Script) (r : Ran) → NeverOpened r
        → ((disk : ℕ) → faults_at r.old.disk_faults disk ≤ faults_at r.new.disk_faults disk) →
        NotesCause S r }
{}
