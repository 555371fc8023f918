//! Those that work beside each other over a book, and what stands behind the joins.
ghost use Rattle.std.specs.Prelude.{◌≡◌, ◌≤◌, ℕ, [], All, IfOk, List, None, Option, length, map, vec_len};
ghost use Rattle.hs_book.specs.History.{IsBook, NobodyJoins};
ghost use Rattle.hs_load.specs.Joined.{HasJoined, IsApart, team_of};
ghost use Rattle.hs_load.specs.Judged.{HaveWorked};
ghost use Rattle.hs_load.specs.Seating.{AreBack, HasCameBack, IsSeated};
ghost use Rattle.hs_load.specs.Team.{Task};
ghost use Rattle.hs_peerlog.specs.Lists.{Keeping};
ghost use Rattle.hs_taking.specs.Disks.{AreReady, DiskSeen, seen_as};
ghost use Rattle.hs_workers.specs.Elements.{CanBegin};

use crate::comparing::first_apart;
use crate::gathering::{Returned, gather_all};
use crate::handing::{Askers, Peers, hand_askers, hand_peers};
use crate::places::nothing_at;
use crate::seating::{Elements, seat_askers, seat_peers};
use hs_block::Addresser;
use hs_book::{Book, Opening};
use hs_core::Core;
use hs_desk::{CoreFault, Gate};
use hs_peerlog::PeerLog;
use hs_ports::{Disk, Watch};
use hs_promise::Stored;
use hs_workers::{Shared, all_work};
use std::alloc::{AllocError, Global};
use std::mem::replace;
use std::sync::Wait;
use std::thread::Threads;

/// Those that are to work, and what was laid aside of the other peers.
#[derive(Drop)]
struct Seated<D> {
    elements: Elements<D>,
    back: Vec<Option<Returned<D>>>,
}

/// Where the numbers that a peer stored part from those that the book has of it.
#[derive(Clone, Copy, Debug)]
pub(crate) struct Apart {
    pub(crate) peer: u8,
    pub(crate) place: u64,
    pub(crate) told: Option<u64>,
    pub(crate) kept: Option<u64>,
}

/// What stands behind the joins: the core that came out of the book, why that has ended, if it has, where
/// the peers' numbers part from its own, if they do, and what those that worked hand back.
#[derive(Drop)]
pub(crate) struct Joined {
    pub(crate) core: Core,
    pub(crate) ended: Option<CoreFault>,
    pub(crate) apart: Option<Apart>,
    pub(crate) peers: Peers,
    pub(crate) askers: Askers,
}

/// Seats all of them.
fn seat_all<D: Disk + Drop>(
    alloc: Global,
    disks: Vec<D>,
    logs: Vec<Option<PeerLog>>,
    watch: &Watch,
    writers: u8,
) -> Result<Seated<D>, AllocError>
    requires { vec_len logs ≡ vec_len disks }
    ensures seated { (task : Task) → task.writers ≡ writers → IfOk result (λ seated.
        All (IsSeated D.tells D.size D.stands D.faults logs.items
        (map (λ disk. seen_as (D.size disk) (D.stands disk) (D.faults disk)) disks.items) watch.now task)
        seated.elements.items) }
    ensures back { IfOk result (λ seated. AreBack D.tells D.size D.stands D.faults logs.items
        (map (λ disk. seen_as (D.size disk) (D.stands disk) (D.faults disk)) disks.items)
        seated.back.items) }
    ensures count { IfOk result (λ seated. vec_len seated.back ≡ vec_len disks) }
{
    let mut back = nothing_at(alloc, disks.len())?;
    let mut elements = Vec::new(alloc);
    seat_peers(alloc, disks, logs, watch, &mut elements, &mut back)?;
    seat_askers(alloc, writers, &mut elements)?;
    Ok(Seated { elements, back })
}

/// Gathers all of them, and hands the disks back.
fn hand_all<D: Disk + Drop>(
    alloc: Global,
    seated: Seated<D>,
    writers: u8,
    disks: &mut Vec<D>,
    watch: &mut Watch,
) -> Result<(Peers, Askers), AllocError>
    requires { disks.old.items ≡ [] }
    ensures worked { (slots : List (Option Keeping)) (old : List DiskSeen) (now : ℕ) (task : Task)
        → task.writers ≡ writers → length old ≡ vec_len seated.back
        → All (HasCameBack D.tells D.size D.stands D.faults slots old now task) seated.elements.items
        → AreBack D.tells D.size D.stands D.faults slots old seated.back.items
        → IfOk result (λ team. HaveWorked D.tells task slots old
        (map (λ disk. seen_as (D.size disk) (D.stands disk) (D.faults disk)) disks.new.items)
        (team_of team.0 team.1)) }
    ensures count { IfOk result (λ team. vec_len disks.new ≡ vec_len seated.back) }
    ensures ticks { watch.old ≤ watch.new }
{
    let Seated { elements, mut back } = seated;
    let mut told = nothing_at(alloc, usize::from(writers) + 1)?;
    gather_all(elements, writers, &mut back, &mut told, watch)?;
    let peers = hand_peers(alloc, back, disks)?;
    let askers = hand_askers(alloc, told)?;
    Ok((peers, askers))
}

/// Where the numbers of a peer part from those that the book has, at the first such peer.
fn first_apart_of<O: Opening>(stored: &[Stored], book: &Book<O>) -> Option<Apart>
    requires { length stored.now ≤ 256 }
    ensures { IsApart stored.now book.now result }
{
    for (peer, given) in stored.iter().enumerate() {
        let peer = peer as u8;
        let numbers = given.numbers.as_slice();
        let reported = book.reported(peer);
        if let Some(place) = first_apart(numbers, reported) {
            return Some(Apart {
                peer,
                place: place as u64,
                told: numbers.get(place).copied(),
                kept: reported.get(place).copied(),
            });
        }
    }
    None
}

/// Lets all work over a book of a core, in an opening that the caller picks.
fn work_over<
    O: Opening + Send + Sync,
    H: Threads + Wait + Sync,
    A: Addresser + Sync,
    D: Disk + Send,
    T: Gate + Sync,
>(
    alloc: Global,
    rt: &H,
    naming: &A,
    core: Core,
    elements: &mut Elements<D>,
    askers: u32,
    seed: u64,
    files: u32,
    gate: &T,
) -> Result<Book<O>, CoreFault>
    requires start { core ≡ O.start }
    requires going { core.ended ≡ None }
    requires calm { NobodyJoins core }
    requires seated { All (CanBegin (λ seat. seat) (λ pass. pass) D.tells D.size D.stands) elements.old.items }
    ensures came { (slots : List (Option Keeping)) (old : List DiskSeen) (now writers : ℕ)
        → All (IsSeated D.tells D.size D.stands D.faults slots old now
        (record { name = A.name naming.now; seed = seed; writers = writers; files = files })) elements.old.items
        → IfOk result (λ book. All (HasCameBack D.tells D.size D.stands D.faults slots old now
        (record { name = A.name naming.now; seed = seed; writers = writers; files = files })) elements.new.items) }
{
    let book: Book<O> = Book::open(alloc, core)?;
    let shared = Shared::new(book, askers);
    all_work(alloc, rt, naming, &shared, elements, seed, files, gate);
    Ok(shared.into_book())
}

/// Lets writers, the deleter and the workers of peers work beside each other, and hands back what they
/// came to, with the disks in their places.
pub(crate) fn work_and_join<
    O: Opening + Send + Sync,
    H: Threads + Wait + Sync,
    A: Addresser + Sync,
    D: Disk + Drop + Send,
    T: Gate + Sync,
>(
    alloc: Global,
    rt: &H,
    naming: &A,
    core: Core,
    logs: Vec<Option<PeerLog>>,
    seed: u64,
    writers: u8,
    files: u32,
    disks: &mut Vec<D>,
    watch: &mut Watch,
    gate: &T,
) -> Result<Joined, CoreFault>
    requires start { core ≡ O.start }
    requires going { core.ended ≡ None }
    requires calm { NobodyJoins core }
    requires count { vec_len logs ≡ vec_len disks.old }
    requires few { vec_len disks.old ≤ 256 }
    requires ready { AreReady D.tells logs.items
        (map (λ disk. seen_as (D.size disk) (D.stands disk) (D.faults disk)) disks.old.items) }
    ensures joined { IfOk result (HasJoined D.tells
        (record { name = A.name naming.now; seed = seed; writers = writers; files = files })
        O.start logs.items
        (map (λ disk. seen_as (D.size disk) (D.stands disk) (D.faults disk)) disks.old.items)
        (map (λ disk. seen_as (D.size disk) (D.stands disk) (D.faults disk)) disks.new.items)) }
    ensures count { IfOk result (λ joined. vec_len disks.new ≡ vec_len disks.old) }
    ensures ticks { watch.old ≤ watch.new }
{
    let taken = replace(disks, Vec::new(alloc));
    let mut seated = seat_all(alloc, taken, logs, watch, writers)?;
    let book: Book<O> = work_over(
        alloc,
        rt,
        naming,
        core,
        &mut seated.elements,
        u32::from(writers) + 1,
        seed,
        files,
        gate,
    )?;
    let (peers, askers) = hand_all(alloc, seated, writers, disks, watch)?;
    let apart = first_apart_of(peers.stored.as_slice(), &book);
    let ended = book.ended();
    let core = book.into_core();
    Ok(Joined {
        core,
        ended,
        apart,
        peers,
        askers,
    })
}
