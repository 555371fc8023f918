//! What those that worked beside each other hand back.
ghost use Rattle.std.specs.Prelude.{◌≡◌, ◌≤◌, ℕ, All, List, None, Option, vec_len};
ghost use Rattle.std.specs.Result.{result_err};
ghost use Rattle.hs_taking.specs.Disks.{DiskSeen};
ghost use Rattle.hs_load.specs.Seating.{AreAskers, AreBack, HasCameBack};
ghost use Rattle.hs_load.specs.Team.{Task, ends_failed, fresh_slip, kept_of, log_left, stored_of, without_files};
ghost use Rattle.hs_peerlog.specs.Lists.{Keeping};

use crate::places::put_at;
use crate::seating::Elements;
use hs_book::{BookPass, BookSeat};
use hs_desk::{Slip, Token};
use hs_peerlog::PeerLog;
use hs_ports::{Disk, Watch};
use hs_promise::{Kept, Stored};
use hs_script::WriterSum;
use hs_workers::{Deleter, Element, WorkFault, Worker, Writer};
use std::alloc::{AllocError, Global};

/// What is gathered of a peer: its disk, its log, where that is in use, what it did, and why its worker
/// stopped, if it did.
#[derive(Drop)]
pub(crate) struct Returned<D> {
    pub(crate) disk: D,
    pub(crate) log: Option<PeerLog>,
    pub(crate) stored: Stored,
    pub(crate) stop: Option<WorkFault>,
}

/// What is gathered of one who asked: what it was answered, and how it ended.
#[derive(Drop)]
pub(crate) struct Answered {
    pub(crate) kept: Kept,
    pub(crate) end: Result<WriterSum, WorkFault>,
}

/// A peer whose log is not in use.
pub(crate) fn aside<D>(alloc: Global, peer: u8, disk: D) -> Returned<D>
    ensures disk { result.disk ≡ disk }
    ensures log { result.log ≡ None }
    ensures stored { result.stored ≡ stored_of (fresh_slip peer) }
    ensures stop { result.stop ≡ None }
{
    Returned {
        disk,
        log: None,
        stored: stored_of(BookSeat::new(alloc, peer).into_slip()),
        stop: None,
    }
}

/// What is handed back of a slip.
fn stored_of(slip: Slip) -> Stored
    ensures { result ≡ stored_of slip }
{
    let Slip {
        peer,
        work: _,
        stored,
        shown,
        idle: _,
        fault,
    } = slip;
    Stored {
        peer,
        numbers: stored.into_list(),
        shown: shown.into_list(),
        fault,
    }
}

/// What is handed back of a token.
fn kept_of(token: Token) -> Kept
    ensures { result ≡ kept_of token }
{
    let Token {
        session,
        number: _,
        asked: _,
        held: _,
        kept,
        fault,
    } = token;
    Kept {
        session,
        answers: kept.into_list(),
        fault,
    }
}

/// Whether the last of some numbers is a 0, as where the disk failed.
fn ends_failed(numbers: &[u64]) -> bool
    ensures { result ≡ ends_failed numbers.now }
{
    match numbers.last() {
        Some(number) => *number == 0,
        None => false,
    }
}

/// What is gathered of the worker of a peer; `watch` goes on to its watch.
fn gather_worker<D>(worker: Worker<BookSeat, D>, watch: &mut Watch) -> (u8, Returned<D>)
    ensures peer { result.0 ≡ worker.seat.peer }
    ensures disk { result.1.disk ≡ worker.disk }
    ensures log { result.1.log ≡ log_left worker.seat (result_err worker.ended) worker.log }
    ensures stored { result.1.stored ≡ stored_of worker.seat }
    ensures stop { result.1.stop ≡ result_err worker.ended }
    ensures ticks { watch.old ≤ watch.new }
{
    let Worker {
        seat,
        log,
        disk,
        watch: own,
        ended,
    } = worker;
    watch.reach(&own);
    let slip = seat.into_slip();
    let peer = slip.peer;
    let stored = stored_of(slip);
    let stop = ended.err();
    let in_use = stop.is_none() && !ends_failed(stored.numbers.as_slice());
    let log = if in_use { Some(log) } else { None };
    (
        peer,
        Returned {
            disk,
            log,
            stored,
            stop,
        },
    )
}

/// What is gathered of a writer.
fn gather_writer(writer: Writer<BookPass>) -> Answered
    ensures kept { result.kept ≡ kept_of writer.pass }
    ensures end { result.end ≡ writer.ended }
{
    let Writer {
        pass,
        number: _,
        ended,
    } = writer;
    Answered {
        kept: kept_of(pass.into_token()),
        end: ended,
    }
}

/// What is gathered of the deleter, which counts no files.
fn gather_deleter(deleter: Deleter<BookPass>) -> Answered
    ensures kept { result.kept ≡ kept_of deleter.pass }
    ensures end { result.end ≡ without_files deleter.ended }
{
    let Deleter { pass, ended } = deleter;
    let end = match ended {
        Ok(()) => Ok(WriterSum { files: 0, kept: 0 }),
        Err(why) => Err(why),
    };
    Answered {
        kept: kept_of(pass.into_token()),
        end,
    }
}

/// Gathers one of those that worked: a peer at its place, a writer at its own, and the deleter behind the
/// writers.
#[tactic(auto, using(crate::proofs::GatherLemmas::worker_back, crate::proofs::GatherLemmas::writer_told, crate::proofs::GatherLemmas::deleter_told))]
fn gather_one<D: Disk + Drop>(
    element: Element<BookSeat, BookPass, D>,
    writers: u8,
    back: &mut Vec<Option<Returned<D>>>,
    told: &mut Vec<Option<Answered>>,
    watch: &mut Watch,
) -> Result<(), AllocError>
    ensures back { (slots : List (Option Keeping)) (disks : List DiskSeen) (now : ℕ) (task : Task)
        → HasCameBack D.tells D.size D.stands D.faults slots disks now task element
        → AreBack D.tells D.size D.stands D.faults slots disks back.old.items
        → AreBack D.tells D.size D.stands D.faults slots disks back.new.items }
    ensures told { (slots : List (Option Keeping)) (disks : List DiskSeen) (now : ℕ) (task : Task)
        → task.writers ≡ writers
        → HasCameBack D.tells D.size D.stands D.faults slots disks now task element
        → AreAskers task told.old.items → AreAskers task told.new.items }
    ensures back_count { vec_len back.new ≡ vec_len back.old }
    ensures told_count { vec_len told.new ≡ vec_len told.old }
    ensures ticks { watch.old ≤ watch.new }
{
    match element {
        Element::Worker { worker } => {
            let (peer, returned) = gather_worker(worker, watch);
            put_at(back, peer, returned)
        }
        Element::Writer { writer } => {
            let number = writer.number;
            put_at(told, number, gather_writer(writer))
        }
        Element::Deleter { deleter } => put_at(told, writers, gather_deleter(deleter)),
    }
}

/// Gathers all of those that worked.
pub(crate) fn gather_all<D: Disk + Drop>(
    elements: Elements<D>,
    writers: u8,
    back: &mut Vec<Option<Returned<D>>>,
    told: &mut Vec<Option<Answered>>,
    watch: &mut Watch,
) -> Result<(), AllocError>
    ensures back { (slots : List (Option Keeping)) (disks : List DiskSeen) (now : ℕ) (task : Task)
        → All (HasCameBack D.tells D.size D.stands D.faults slots disks now task) elements.items
        → AreBack D.tells D.size D.stands D.faults slots disks back.old.items
        → AreBack D.tells D.size D.stands D.faults slots disks back.new.items }
    ensures told { (slots : List (Option Keeping)) (disks : List DiskSeen) (now : ℕ) (task : Task)
        → task.writers ≡ writers
        → All (HasCameBack D.tells D.size D.stands D.faults slots disks now task) elements.items
        → AreAskers task told.old.items → AreAskers task told.new.items }
    ensures back_count { vec_len back.new ≡ vec_len back.old }
    ensures told_count { vec_len told.new ≡ vec_len told.old }
    ensures ticks { watch.old ≤ watch.new }
{
    let mut elements = elements;
    for _turn in 0..elements.len() {
        let Some(element) = elements.pop() else {
            return Err(AllocError);
        };
        gather_one(element, writers, back, told, watch)?;
    }
    Ok(())
}
