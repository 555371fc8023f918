//! Whether what those that worked hand back is the journal's.
ghost use Rattle.std.specs.Prelude.{◌≡◌, ◌++◌, ◌≤◌, ℕ, All, IfNone, IfOk, IfSome, List, None, OnOk, Option, Some, codes, length, slice_get, slice_index_or};
ghost use Rattle.std.specs.Fmt.{decimal};
ghost use Rattle.hs_load.specs.Compared.{PartAt, answer_in};
ghost use Rattle.hs_load.specs.Judged.{AreAnswered, IsMismatch, NoneTorn, answers_by, core_status, difference_in, told_at};
ghost use Rattle.hs_journal.specs.declared.entry.JournalEntry.{JournalEntry};
ghost use Rattle.hs_load.specs.Team.{sessions_of};
ghost use Rattle.hs_promise.specs.declared.load.Kept.{Kept};
ghost use Rattle.hs_promise.specs.declared.load.Stored.{Stored};
ghost use Rattle.hs_promise.specs.declared.told.Told.TheVariants as told;
ghost use Rattle.hs_workers.specs.declared.fault.WorkFault.TheVariants as work;

use crate::comparing::{Parting, first_parting};
use crate::names::name_of;
use crate::telling::{told_by, told_in};
use hs_desk::CoreFault;
use hs_journal::JournalEntry;
use hs_limits::Name;
use hs_promise::{Kept, Status, Stored, Told};
use hs_workers::WorkFault;
use std::alloc::{AllocError, Global};
use std::io;
use std::io::Write;

/// How a load ends where its book has ended.
pub(crate) fn core_status(fault: CoreFault) -> Status
    ensures { result ≡ core_status fault }
{
    match fault {
        CoreFault::OpsFull => Status::OpsFull,
        CoreFault::ShardLost { shard } => Status::ShardLost { shard },
        CoreFault::NoMemory => Status::NoMemory,
    }
}

/// A worker's job was of another number than the next one of its log.
#[derive(Clone, Copy, Debug)]
pub(crate) struct TornJob {
    pub(crate) peer: u8,
    pub(crate) place: u64,
    pub(crate) told: u64,
    pub(crate) kept: u64,
}

/// The first worker that stopped so.
pub(crate) fn torn_job(stops: &[Option<WorkFault>]) -> Option<TornJob>
    requires { length stops.now ≤ 256 }
    ensures some { IfSome result (λ job. slice_get stops.now job.peer
        ≡ Some (Some (work.Torn job.place job.told job.kept))) }
    ensures none { IfNone result (NoneTorn stops.now) }
{
    for (peer, stop) in stops.iter().enumerate() {
        match stop {
            Some(WorkFault::Torn { place, told, kept }) => {
                return Some(TornJob {
                    peer: peer as u8,
                    place: *place,
                    told: *told,
                    kept: *kept,
                });
            }
            Some(WorkFault::Core { .. }) | Some(WorkFault::NoMemory) | None => {}
        }
    }
    None
}

/// A difference between what was told and what the journal has: at which place of a session's list, and
/// both sides.
#[derive(Drop)]
pub(crate) struct Difference {
    pub(crate) session: Name,
    pub(crate) place: u64,
    pub(crate) told: Box<Told>,
    pub(crate) kept: Box<Told>,
}

/// How a load ends with it.
pub(crate) fn difference_status(difference: Difference) -> Status
    ensures { difference_in result ≡ Some (record {
      session = difference.session;
      place = difference.place;
      said = difference.told.value;
      had = difference.kept.value;
    }) }
{
    let Difference {
        session,
        place,
        told,
        kept,
    } = difference;
    Status::Mismatch {
        session,
        place,
        told,
        kept,
    }
}

/// One side, on the heap.
fn boxed(alloc: Global, told: Told) -> Result<Box<Told>, AllocError>
    ensures { IfOk result (λ side. side.value ≡ told) }
{
    match Box::new(alloc, told) {
        Ok(side) => Ok(side),
        Err(_) => Err(AllocError),
    }
}

/// What is told where the answers of one part from its own in the journal.
fn answers_part(
    alloc: Global,
    journal: &[JournalEntry],
    given: &Kept,
    parting: Parting,
) -> Result<Difference, AllocError>
    ensures session { IfOk result (λ d. d.session ≡ given.now.session) }
    ensures place { IfOk result (λ d. d.place ≡ parting.place) }
    ensures told { IfOk result (λ d. d.told.value
        ≡ told_at (slice_get given.now.answers parting.place)) }
    ensures kept { IfOk result (λ d. d.kept.value ≡ told_at (answer_in journal.now parting.journal)) }
{
    let session = given.session.copy(alloc)?;
    let told = boxed(
        alloc,
        told_in(alloc, given.answers.as_slice(), parting.place)?,
    )?;
    let kept = boxed(alloc, told_by(alloc, journal, parting.journal)?)?;
    Ok(Difference {
        session,
        place: parting.place as u64,
        told,
        kept,
    })
}

/// What is told where a session was told a fault that the book has not.
fn fault_part(
    alloc: Global,
    session: Name,
    place: u64,
    fault: CoreFault,
) -> Result<Difference, AllocError>
    ensures session { IfOk result (λ d. d.session ≡ session) }
    ensures place { IfOk result (λ d. d.place ≡ place) }
    ensures told { IfOk result (λ d. d.told.value ≡ told.Fault fault) }
    ensures kept { IfOk result (λ d. d.kept.value ≡ told.Absent) }
{
    let told = boxed(alloc, Told::Fault(fault))?;
    let kept = boxed(alloc, Told::Absent)?;
    Ok(Difference {
        session,
        place,
        told,
        kept,
    })
}

/// The first of those who asked whose answers part from its own in the journal.
pub(crate) fn answers_differ(
    alloc: Global,
    sessions: &[Name],
    journal: &[JournalEntry],
    kept: &[Kept],
) -> Result<Option<Difference>, AllocError>
    ensures none { (writers : ℕ) → sessions.now ≡ sessions_of writers → IfOk result (λ found.
        IfNone found (AreAnswered writers journal.now kept.now)) }
    ensures some { (writers : ℕ) (stored : List Stored) → sessions.now ≡ sessions_of writers → IfOk result (λ found.
        IfSome found (λ d. IsMismatch writers journal.now kept.now stored
        (record { session = d.session; place = d.place; said = d.told.value; had = d.kept.value }))) }
{
    for (owner, given) in kept.iter().enumerate() {
        match first_parting(sessions, owner, journal, given.answers.as_slice()) {
            Some(parting) => {
                return Ok(Some(answers_part(alloc, journal, given, parting)?));
            }
            None => {}
        }
    }
    Ok(None)
}

/// The first of those who asked that was told a fault.
pub(crate) fn asker_fault(alloc: Global, kept: &[Kept]) -> Result<Option<Difference>, AllocError>
    ensures none { IfOk result (λ found. IfNone found
        (All (λ (given : Kept). given.fault ≡ None) kept.now)) }
    ensures some { (writers : ℕ) (journal : List JournalEntry) (stored : List Stored) → IfOk result (λ found.
        IfSome found (λ d. IsMismatch writers journal kept.now stored
        (record { session = d.session; place = d.place; said = d.told.value; had = d.kept.value }))) }
{
    for given in kept {
        if let Some(fault) = given.fault {
            let session = given.session.copy(alloc)?;
            let place = given.answers.len() as u64;
            return Ok(Some(fault_part(alloc, session, place, fault)?));
        }
    }
    Ok(None)
}

/// Puts the name of a peer at the end of `out`.
fn put_peer(peer: usize, out: &mut Vec<u8>) -> io::Result<()>
    ensures { OnOk result (out.new.items ≡ out.old.items ++ (codes "peer" ++ decimal peer)) }
{
    write!(out, "peer{peer}")
}

/// The name of a peer.
fn peer_name(alloc: Global, peer: usize) -> Result<Name, AllocError>
    ensures { IfOk result (λ name. name ≡ codes "peer" ++ decimal peer) }
{
    let mut bytes = Vec::with_capacity(alloc, 8)?;
    if put_peer(peer, &mut bytes).is_err() {
        return Err(AllocError);
    }
    name_of(bytes)
}

/// The first worker that was told a fault.
pub(crate) fn worker_fault(
    alloc: Global,
    stored: &[Stored],
) -> Result<Option<Difference>, AllocError>
    ensures none { IfOk result (λ found. IfNone found
        (All (λ (given : Stored). given.fault ≡ None) stored.now)) }
    ensures some { (writers : ℕ) (journal : List JournalEntry) (kept : List Kept) → IfOk result (λ found.
        IfSome found (λ d. IsMismatch writers journal kept stored.now
        (record { session = d.session; place = d.place; said = d.told.value; had = d.kept.value }))) }
{
    for (peer, given) in stored.iter().enumerate() {
        if let Some(fault) = given.fault {
            let place = given.numbers.len() as u64;
            return Ok(Some(fault_part(alloc, peer_name(alloc, peer)?, place, fault)?));
        }
    }
    Ok(None)
}
