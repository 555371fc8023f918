//! What was gathered, in its order.
ghost use Rattle.std.specs.Prelude.{◌≡◌, ◌<◌, ℕ, [], IfOk, List, Option, Result, length, map, slice_index_or, vec_len};
ghost use Rattle.hs_taking.specs.Disks.{DiskSeen, log_at, seen_as, seen_at};
ghost use Rattle.hs_load.specs.Seating.{AreAskers, AreBack};
ghost use Rattle.hs_load.specs.Team.{AskerEnds, PeerEnds, Task};
ghost use Rattle.hs_peerlog.specs.Lists.{Keeping};
ghost use Rattle.hs_promise.specs.declared.load.Kept.{Kept};
ghost use Rattle.hs_promise.specs.declared.load.Stored.{Stored};
ghost use Rattle.hs_script.specs.declared.sums.WriterSum.{WriterSum};
ghost use Rattle.hs_workers.specs.declared.fault.WorkFault.{WorkFault};

use crate::gathering::{Answered, Returned};
use crate::places::{add, take_at};
use hs_peerlog::PeerLog;
use hs_ports::Disk;
use hs_promise::{Kept, Stored};
use hs_script::WriterSum;
use hs_workers::WorkFault;
use std::alloc::{AllocError, Global};

/// By peer what it did, why its worker stopped, if it did, and its log, where that is in use.
#[derive(Drop)]
pub(crate) struct Peers {
    pub(crate) stored: Vec<Stored>,
    pub(crate) stops: Vec<Option<WorkFault>>,
    pub(crate) logs: Vec<Option<PeerLog>>,
}

/// By writer, and last of the deleter, what was answered, and how it ended.
#[derive(Drop)]
pub(crate) struct Askers {
    pub(crate) kept: Vec<Kept>,
    pub(crate) ends: Vec<Result<WriterSum, WorkFault>>,
}

/// Hands the disks back in the order of their peers, and what the peers came to.
pub(crate) fn hand_peers<D: Disk + Drop>(
    alloc: Global,
    back: Vec<Option<Returned<D>>>,
    disks: &mut Vec<D>,
) -> Result<Peers, AllocError>
    requires { disks.old.items ≡ [] }
    ensures count { IfOk result (λ peers. vec_len disks.new ≡ vec_len back) }
    ensures stored { IfOk result (λ peers. vec_len peers.stored ≡ vec_len back) }
    ensures stops { IfOk result (λ peers. vec_len peers.stops ≡ vec_len back) }
    ensures logs { IfOk result (λ peers. vec_len peers.logs ≡ vec_len back) }
    ensures each { (slots : List (Option Keeping)) (old : List DiskSeen)
        → AreBack D.tells D.size D.stands D.faults slots old back.items
        → IfOk result (λ peers. (peer : ℕ) (given : Stored) (stop : Option WorkFault) → peer < vec_len back
        → PeerEnds D.tells peer (log_at slots peer) (seen_at old peer)
        (seen_at (map (λ disk. seen_as (D.size disk) (D.stands disk) (D.faults disk)) disks.new.items) peer)
        (log_at peers.logs.items peer) (slice_index_or peers.stored.items peer given)
        (slice_index_or peers.stops.items peer stop)) }
{
    let mut back = back;
    let mut stored = Vec::new(alloc);
    let mut stops = Vec::new(alloc);
    let mut logs = Vec::new(alloc);
    for peer in 0..back.len() {
        let Some(returned) = take_at(&mut back, peer) else {
            return Err(AllocError);
        };
        let Returned {
            disk,
            log,
            stored: did,
            stop,
        } = returned;
        add(disks, disk)?;
        add(&mut logs, log)?;
        add(&mut stored, did)?;
        add(&mut stops, stop)?;
    }
    Ok(Peers {
        stored,
        stops,
        logs,
    })
}

/// Hands back what those who asked were answered, in their order.
pub(crate) fn hand_askers(alloc: Global, told: Vec<Option<Answered>>) -> Result<Askers, AllocError>
    ensures kept { IfOk result (λ askers. vec_len askers.kept ≡ vec_len told) }
    ensures ends { IfOk result (λ askers. vec_len askers.ends ≡ vec_len told) }
    ensures each { (task : Task)
        → AreAskers task told.items
        → IfOk result (λ askers. (number : ℕ) (given : Kept) (end : Result WriterSum WorkFault) → number < vec_len told
        → AskerEnds task number (slice_index_or askers.kept.items number given)
        (slice_index_or askers.ends.items number end)) }
{
    let mut told = told;
    let mut kept = Vec::new(alloc);
    let mut ends = Vec::new(alloc);
    for number in 0..told.len() {
        let Some(answered) = take_at(&mut told, number) else {
            return Err(AllocError);
        };
        let Answered { kept: answers, end } = answered;
        add(&mut kept, answers)?;
        add(&mut ends, end)?;
    }
    Ok(Askers { kept, ends })
}
