//! One job on the disk of a peer.
ghost use Rattle.std.specs.Prelude.{◌≡◌, ◌≤◌, ◌<◌, ℕ, List, length, if◌then◌else◌, Some, None, true, false, IfOk, IfErr};
ghost use Rattle.hs_entry.specs.declared.entry.Entry.{Entry};
ghost use Rattle.hs_desk.specs.Slips.{answers_one, answers_work, is_own_job, work_of};
ghost use Rattle.hs_desk.specs.declared.job.Job.TheVariants.{Append};
ghost use Rattle.hs_desk.specs.declared.job.Work.{Work};
ghost use Rattle.hs_desk.specs.declared.job.Work.TheVariants as work;
ghost use Rattle.hs_workers.specs.Work.{Has, HasDone, IsInPlace, RefusesWork, bench_of, is_failed, shown_of, next_to_append};

use crate::WorkFault;
use hs_desk::{Done, Job};
use hs_entry::Entry;
use hs_peerlog::{LogFault, PeerLog};
use hs_ports::{Disk, Watch};
use hs_readable::is_readable;

/// Does a job that a desk handed out. `place` numbers were stored before.
pub fn do_job<D: Disk>(
    log: &mut PeerLog,
    disk: &mut D,
    watch: &mut Watch,
    peer: u8,
    place: u64,
    job: &Job,
) -> Result<Done, WorkFault>
    requires own { is_own_job job.now ≡ true }
    requires in_place { IsInPlace D.tells (bench_of D.size D.stands D.faults log.old disk.old) }

    ensures answer { IfOk result (λ done. answers_work (work_of job.now) peer done ≡ true) }
    ensures done { IfOk result (HasDone D.tells (bench_of D.size D.stands D.faults log.old disk.old)
        (bench_of D.size D.stands D.faults log.new disk.new)) }
    ensures in_place { IfOk result (λ done. is_failed done ≡ false
        → IsInPlace D.tells (bench_of D.size D.stands D.faults log.new disk.new)) }

    // What was appended is the job's entry.
    ensures entry { D.tells → (number : ℕ) (entry : Entry) (list : List (ℕ × Entry))
        → job.now ≡ Append number entry
        → Has (bench_of D.size D.stands D.faults log.old disk.old) list None
        → IfOk result (λ done. is_failed done ≡ false
        → Has (bench_of D.size D.stands D.faults log.new disk.new) list (Some entry)) }

    ensures refused { (stored : List ℕ) (w : Work) → place ≡ length stored → work_of job.now ≡ Some w
        → IfErr result (RefusesWork w (bench_of D.size D.stands D.faults log.old disk.old)
        (bench_of D.size D.stands D.faults log.new disk.new) stored) }
    ensures later { D.faults disk.old ≤ D.faults disk.new }
    ensures ticks { watch.old ≤ watch.new }
{
    match job {
        Job::Append { number, entry } => {
            append_one(log, disk, watch, peer, place, *number, entry)
        }
        Job::Seal { number } => seal_one(log, disk, watch, peer, place, *number),
        Job::Read { number } => read_one(log, disk, peer, *number),
        Job::Reset | Job::Copy { .. } | Job::Reclaim => Err(WorkFault::NoMemory),
    }
}

/// Appends an entry, where its number is the next one.
fn append_one<D: Disk>(
    log: &mut PeerLog,
    disk: &mut D,
    watch: &mut Watch,
    peer: u8,
    place: u64,
    number: u64,
    entry: &Entry,
) -> Result<Done, WorkFault>
    requires in_place { IsInPlace D.tells (bench_of D.size D.stands D.faults log.old disk.old) }

    ensures answer { IfOk result (λ done. answers_one (work.Append number) peer done ≡ true) }
    ensures done { IfOk result (HasDone D.tells (bench_of D.size D.stands D.faults log.old disk.old)
        (bench_of D.size D.stands D.faults log.new disk.new)) }
    ensures in_place { IfOk result (λ done. is_failed done ≡ false
        → IsInPlace D.tells (bench_of D.size D.stands D.faults log.new disk.new)) }

    ensures entry { D.tells → (list : List (ℕ × Entry))
        → Has (bench_of D.size D.stands D.faults log.old disk.old) list None
        → IfOk result (λ done. is_failed done ≡ false
        → Has (bench_of D.size D.stands D.faults log.new disk.new) list (Some entry.now)) }

    ensures refused { (stored : List ℕ) → place ≡ length stored
        → IfErr result (RefusesWork (work.Append number) (bench_of D.size D.stands D.faults log.old disk.old)
        (bench_of D.size D.stands D.faults log.new disk.new) stored) }
    ensures later { D.faults disk.old ≤ D.faults disk.new }
    ensures ticks { watch.old ≤ watch.new }
{
    let next = next_to_append(log)?;
    if number != next {
        return Err(WorkFault::Torn {
            place,
            told: number,
            kept: next,
        });
    }
    if next == 0 || !is_readable(entry) {
        return Err(WorkFault::NoMemory);
    }
    match log.append(disk, watch, number, entry) {
        Ok(()) => Ok(Done::Stored { number }),
        Err(LogFault::Disk) => Ok(Done::Failed { disk: peer }),
        Err(_) => Err(WorkFault::NoMemory),
    }
}

/// The number that a log has next to append, and 0 while an entry waits to be sealed.
fn next_to_append(log: &PeerLog) -> Result<u64, WorkFault>
    ensures value { IfOk result (λ next. next ≡ next_to_append log.now) }
    ensures free { IfOk result (λ next. 0 < next → log.now.waits ≡ None) }
    ensures memory { IfErr result (λ fault. fault ≡ WorkFault.NoMemory) }
{
    if log.unsealed().is_some() {
        return Ok(0);
    }
    match log.last().checked_add(1) {
        Some(next) => Ok(next),
        None => Err(WorkFault::NoMemory),
    }
}

/// Seals the entry that waits, where this is its number.
fn seal_one<D: Disk>(
    log: &mut PeerLog,
    disk: &mut D,
    watch: &mut Watch,
    peer: u8,
    place: u64,
    number: u64,
) -> Result<Done, WorkFault>
    requires in_place { IsInPlace D.tells (bench_of D.size D.stands D.faults log.old disk.old) }

    ensures answer { IfOk result (λ done. answers_one (work.Seal number) peer done ≡ true) }
    ensures done { IfOk result (HasDone D.tells (bench_of D.size D.stands D.faults log.old disk.old)
        (bench_of D.size D.stands D.faults log.new disk.new)) }
    ensures in_place { IfOk result (λ done. is_failed done ≡ false
        → IsInPlace D.tells (bench_of D.size D.stands D.faults log.new disk.new)) }

    ensures refused { (stored : List ℕ) → place ≡ length stored
        → IfErr result (RefusesWork (work.Seal number) (bench_of D.size D.stands D.faults log.old disk.old)
        (bench_of D.size D.stands D.faults log.new disk.new) stored) }
    ensures later { D.faults disk.old ≤ D.faults disk.new }
    ensures ticks { watch.old ≤ watch.new }
{
    let waits = log.unsealed();
    let next = waits.unwrap_or(0);
    if number != next {
        return Err(WorkFault::Torn {
            place,
            told: number,
            kept: next,
        });
    }
    if waits.is_none() {
        return Err(WorkFault::NoMemory);
    }
    match log.seal(disk, watch) {
        Ok(()) => Ok(Done::Sealed { number }),
        Err(LogFault::Disk) => Ok(Done::Failed { disk: peer }),
        Err(_) => Err(WorkFault::NoMemory),
    }
}

/// Reads the block of the entry of a number. A later read that gives no entry counts as a disk that failed.
fn read_one<D: Disk>(log: &PeerLog, disk: &mut D, peer: u8, number: u64) -> Result<Done, WorkFault>
    requires in_place { IsInPlace D.tells (bench_of D.size D.stands D.faults log.now disk.old) }

    ensures answer { IfOk result (λ done. answers_one (work.Read number) peer done ≡ true) }
    ensures done { IfOk result (HasDone D.tells (bench_of D.size D.stands D.faults log.now disk.old)
        (bench_of D.size D.stands D.faults log.now disk.new)) }
    ensures in_place { IfOk result (λ done. is_failed done ≡ false
        → IsInPlace D.tells (bench_of D.size D.stands D.faults log.now disk.new)) }

    ensures refused { IfErr result (λ fault. fault ≡ WorkFault.NoMemory) }
    ensures later { D.faults disk.old ≤ D.faults disk.new }
{
    match log.read_entry(disk, number) {
        Ok(Some(entry)) => Ok(shown_of(number, entry)),
        Ok(None) => Ok(Done::Gone { number }),
        Err(LogFault::Disk | LogFault::NotALog { .. }) => Ok(Done::Failed { disk: peer }),
        Err(_) => Err(WorkFault::NoMemory),
    }
}

/// What is told of an entry that was read: the bytes of its block, or that it has none.
#[tactic(auto, unfolding(crate::specs::Work::shown_of))]
fn shown_of(number: u64, entry: Entry) -> Done
    ensures value { result ≡ shown_of number entry }
    ensures answer { (peer : ℕ) → answers_one (work.Read number) peer result ≡ true }
{
    match entry {
        Entry::Block { bytes, .. } => Done::Bytes { number, bytes },
        _ => Done::Gone { number },
    }
}

/// Whether a report tells that a disk failed.
pub fn is_failed(done: &Done) -> bool
    ensures { result ≡ is_failed done.now }
{
    matches!(done, Done::Failed { .. })
}
