//! Those that are to work beside each other.
ghost use Rattle.std.specs.Prelude.{◌≡◌, ◌<◌, ℕ, All, List, OnOk, Option, length, map, vec_len};
ghost use Rattle.hs_taking.specs.Disks.{DiskSeen, log_at, seen_as, seen_at};
ghost use Rattle.hs_load.specs.Seating.{AreBack, IsSeated};
ghost use Rattle.hs_load.specs.Team.{Task};
ghost use Rattle.hs_peerlog.specs.Lists.{Keeping};

use crate::gathering::{Returned, aside};
use crate::names::{deleter_name, session_of};
use crate::places::{add, put_at};
use hs_book::{BookPass, BookSeat};
use hs_peerlog::PeerLog;
use hs_ports::{Disk, Watch};
use hs_workers::{Deleter, Element, WorkFault, Worker, Writer};
use std::alloc::{AllocError, Global};

/// Those that work over some disks.
pub(crate) type Elements<D> = Vec<Element<BookSeat, BookPass, D>>;

/// Seats a peer: its worker, with its log and its disk, and a watch of its own; or, where its log is not
/// in use, its disk is laid aside.
fn seat_peer<D: Disk + Drop>(
    alloc: Global,
    peer: u8,
    disk: D,
    log: Option<PeerLog>,
    watch: &Watch,
    elements: &mut Elements<D>,
    back: &mut Vec<Option<Returned<D>>>,
) -> Result<(), AllocError>
    ensures seated { (slots : List (Option Keeping)) (old : List DiskSeen) (task : Task) → peer < length old
        → log_at slots peer ≡ log → seen_at old peer ≡ seen_as (D.size disk) (D.stands disk) (D.faults disk)
        → All (IsSeated D.tells D.size D.stands D.faults slots old watch.now task) elements.old.items
        → OnOk result (All (IsSeated D.tells D.size D.stands D.faults slots old watch.now task) elements.new.items) }
    ensures back { (slots : List (Option Keeping)) (old : List DiskSeen)
        → log_at slots peer ≡ log → seen_at old peer ≡ seen_as (D.size disk) (D.stands disk) (D.faults disk)
        → AreBack D.tells D.size D.stands D.faults slots old back.old.items
        → AreBack D.tells D.size D.stands D.faults slots old back.new.items }
    ensures count { vec_len back.new ≡ vec_len back.old }
{
    match log {
        Some(log) => add(
            elements,
            Element::Worker {
                worker: Worker {
                    seat: BookSeat::new(alloc, peer),
                    log,
                    disk,
                    watch: watch.twin(),
                    ended: Err(WorkFault::NoMemory),
                },
            },
        ),
        None => put_at(back, peer, aside(alloc, peer, disk)),
    }
}

/// Seats each peer.
pub(crate) fn seat_peers<D: Disk + Drop>(
    alloc: Global,
    disks: Vec<D>,
    logs: Vec<Option<PeerLog>>,
    watch: &Watch,
    elements: &mut Elements<D>,
    back: &mut Vec<Option<Returned<D>>>,
) -> Result<(), AllocError>
    requires { vec_len logs ≡ vec_len disks }
    ensures seated { (task : Task)
        → All (IsSeated D.tells D.size D.stands D.faults logs.items
        (map (λ disk. seen_as (D.size disk) (D.stands disk) (D.faults disk)) disks.items) watch.now task) elements.old.items
        → OnOk result (All (IsSeated D.tells D.size D.stands D.faults logs.items
        (map (λ disk. seen_as (D.size disk) (D.stands disk) (D.faults disk)) disks.items) watch.now task) elements.new.items) }
    ensures back { AreBack D.tells D.size D.stands D.faults logs.items
        (map (λ disk. seen_as (D.size disk) (D.stands disk) (D.faults disk)) disks.items) back.old.items
        → AreBack D.tells D.size D.stands D.faults logs.items
        (map (λ disk. seen_as (D.size disk) (D.stands disk) (D.faults disk)) disks.items) back.new.items }
    ensures count { vec_len back.new ≡ vec_len back.old }
{
    let mut disks = disks;
    let mut logs = logs;
    for _turn in 0..disks.len() {
        let Some(disk) = disks.pop() else {
            return Err(AllocError);
        };
        let Some(log) = logs.pop() else {
            return Err(AllocError);
        };
        let Ok(peer) = u8::try_from(disks.len()) else {
            return Err(AllocError);
        };
        seat_peer(alloc, peer, disk, log, watch, elements, back)?;
    }
    Ok(())
}

/// Seats so many writers, and the deleter.
pub(crate) fn seat_askers<D: Disk + Drop>(
    alloc: Global,
    writers: u8,
    elements: &mut Elements<D>,
) -> Result<(), AllocError>
    ensures { (slots : List (Option Keeping)) (old : List DiskSeen) (now : ℕ) (task : Task) → task.writers ≡ writers
        → All (IsSeated D.tells D.size D.stands D.faults slots old now task) elements.old.items
        → OnOk result (All (IsSeated D.tells D.size D.stands D.faults slots old now task) elements.new.items) }
{
    for number in 0..writers {
        let pass = BookPass::new(alloc, session_of(alloc, number)?);
        add(
            elements,
            Element::Writer {
                writer: Writer {
                    pass,
                    number,
                    ended: Err(WorkFault::NoMemory),
                },
            },
        )?;
    }
    let pass = BookPass::new(alloc, deleter_name(alloc)?);
    add(
        elements,
        Element::Deleter {
            deleter: Deleter {
                pass,
                ended: Err(WorkFault::NoMemory),
            },
        },
    )
}
