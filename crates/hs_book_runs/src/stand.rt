//! The logs of all peers beside their disks.
ghost use Rattle.std.specs.Prelude.{◌≡◌, ◌≤◌, true, IfOk};
ghost use Rattle.hs_desk.specs.Slips.{answers_work, is_own_job, work_of};
ghost use Rattle.hs_taking.specs.Disks.{IsSlotReady};

use hs_desk::{Done, Job};
use hs_peerlog::PeerLog;
use hs_ports::{Disk, Watch};
use hs_workers::{WorkFault, do_job, is_failed};
use std::marker::Model;

/// By peer the log that is in use, and its disk, which stands as the log's last call left it; and the
/// watch.
#[derive(Drop)]
pub(crate) struct Stand<D: Disk> {
    pub(crate) logs: Vec<Option<PeerLog>>,
    pub(crate) disks: Vec<D>,
    pub(crate) watch: Watch,
}

impl<D: Disk> Model for Stand<D> {
    ghost use Rattle.std.specs.Prelude.{◌≡◌, List, Option, map, vec_len};
    ghost use Rattle.hs_peerlog.specs.Lists.{Keeping};
    ghost use Rattle.hs_taking.specs.Disks.{AreReady, seen_as};

    ghost Value = { List (Option Keeping) };

    ghost view = { λ s. s.logs.items };

    ghost invariant = { λ s. (vec_len s.logs ≡ vec_len s.disks)
        × AreReady D.tells s.logs.items
        (map (λ disk. seen_as (D.size disk) (D.stands disk) (D.faults disk)) s.disks.items) };
}

impl<D: Disk> Stand<D> {
    /// Does a job of a peer, which stored so many numbers before. Where it is not done the log of the
    /// peer is out of use.
    #[tactic(auto, using(crate::proofs::SlotLemmas::slot_at, crate::proofs::SlotLemmas::ready_slot))]
    pub(crate) fn work_on(&mut self, peer: u8, place: u64, job: &Job) -> Result<Done, WorkFault>
        requires own { is_own_job job.now ≡ true }
        ensures answer { IfOk result (λ done. answers_work (work_of job.now) peer done ≡ true) }
    {
        let at = usize::from(peer);
        if at >= self.logs.len() {
            return Err(WorkFault::NoMemory);
        }
        do_in_slot(
            &mut self.logs[at],
            &mut self.disks[at],
            &mut self.watch,
            peer,
            place,
            job,
        )
    }
}

/// Does a job over the log of its peer. Where it is not done the log is out of use.
fn do_in_slot<D: Disk>(
    slot: &mut Option<PeerLog>,
    disk: &mut D,
    watch: &mut Watch,
    peer: u8,
    place: u64,
    job: &Job,
) -> Result<Done, WorkFault>
    requires own { is_own_job job.now ≡ true }
    requires ready { IsSlotReady D.tells slot.old (D.size disk.old) (D.stands disk.old) }
    ensures answer { IfOk result (λ done. answers_work (work_of job.now) peer done ≡ true) }
    ensures ready { IsSlotReady D.tells slot.new (D.size disk.new) (D.stands disk.new) }
    ensures ticks { watch.old ≤ watch.new }
{
    let Some(log) = slot else {
        return Err(WorkFault::NoMemory);
    };
    match do_job(log, disk, watch, peer, place, job) {
        Ok(done) => {
            if !is_failed(&done) {
                return Ok(done);
            }
            *slot = None;
            Err(WorkFault::NoMemory)
        }
        Err(fault) => {
            *slot = None;
            Err(fault)
        }
    }
}
