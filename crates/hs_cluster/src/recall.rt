//! The first job of a peer, where blocks that were read lately are cached.
ghost use Rattle.std.specs.Prelude.{◌≡◌, ◌*◌, ◌≤◌, ℕ, None, Option, Some, length, map, true, false, IfOk, IfSome, IsOkUnless, IsSome, OnOk};
ghost use Rattle.hs_cache.specs.Cached.{HasNoMore};
ghost use Rattle.hs_cluster.specs.Cached.{AreBlocks, IsRecalled, KeepsRead};
ghost use Rattle.hs_cluster.specs.declared.fault.ClusterFault.TheVariants.{NoMemory};
ghost use Rattle.hs_cluster.specs.Counts.{AllStandUntold, HasAllPaid, HasPaid, NoneFalls};
ghost use Rattle.hs_cluster.specs.Disks.{AreReady, log_at, seen_as, stands_of};
ghost use Rattle.hs_cluster.specs.Growing.{GoesOn};
ghost use Rattle.hs_cluster.specs.Headed.{IsHeadedAt, StaysHeadedAt};
ghost use Rattle.hs_cluster.specs.Jobs.{HasStored, ReadsLog, StandsBeside, TellsBytes, Works, is_own};
ghost use Rattle.hs_core_words.specs.Looking.{catalogue_of, first_job, front_of, home, status_of};
ghost use Rattle.hs_entry.specs.declared.entry.Entry.{Entry};
ghost use Rattle.hs_desk.specs.declared.job.Job.{Job};
ghost use Rattle.hs_desk.specs.declared.job.Job.TheVariants as job;
ghost use Rattle.hs_events.specs.Asked.{failed_disk};
ghost use Rattle.hs_events.specs.Due.{is_answer};
ghost use Rattle.hs_events.specs.Reports.{TellsOf};
ghost use Rattle.hs_members.specs.Members.{IsPeer, is_joining};
ghost use Rattle.hs_fold.specs.Shards.Setting.{Numbered};
ghost use Rattle.hs_peerlog.specs.Lists.{IsKept, Keeping, numbered_entry};
ghost use Rattle.hs_ports.specs.Moments.{disk_at};
ghost use Rattle.hs_side.specs.Headers.{own_header};

use crate::ClusterFault;
use crate::job::do_job;
use crate::work::are_bytes;
use hs_cache::{Cache, recall, remember};
use hs_core::Core;
use hs_desk::{Done, Job};
use hs_members::home_of;
use hs_peerlog::PeerLog;
use hs_ports::{Disk, Watch};
use std::alloc::Global;

/// Does the first job of a peer: what it came to. A Read of a block that is cached is told from
/// there, without a call of its disk; one that took its bytes from the disk has them cached, in
/// front, where their entry has taken effect and there is memory.
pub(crate) fn do_first<D: Disk>(
    alloc: Global,
    core: &Core,
    logs: &mut Vec<Option<PeerLog>>,
    cache: &mut Option<Cache>,
    disks: &mut [D],
    watch: &mut Watch,
    peer: u8,
) -> Result<Done, ClusterFault>
    requires peer { IsPeer core.now.members.shape peer }
    requires logs { length logs.old.items
        ≡ core.now.members.shape.shards * core.now.members.shape.copies }
    requires disks { length disks.old
        ≡ core.now.members.shape.shards * core.now.members.shape.copies }
    requires ready { AreReady D.tells logs.old.items
        (map (λ disk. seen_as (D.size disk) (D.stands disk) (D.faults disk)) disks.old) }
    ensures kept { IfOk result (λ done. KeepsRead (home peer core.now)
        (front_of (home peer core.now) core.now) done cache.old cache.new) }
    // What a job on the disk gives holds of what is cached too.
    ensures answer { IfOk result (λ done. is_answer core.now peer done ≡ true) }
    ensures bytes { IfOk result TellsBytes }
    ensures only { IsOkUnless result NoMemory }
    ensures ready { OnOk result (AreReady D.tells logs.new.items
        (map (λ disk. seen_as (D.size disk) (D.stands disk) (D.faults disk)) disks.new)) }
    ensures logs { length logs.new.items ≡ length logs.old.items }
    ensures disks { length disks.new ≡ length disks.old }
    ensures works { D.tells → Works (own_header core.now.members.shape peer) (record {
      peer = peer;
      before = watch.old;
      now = watch.new;
      logs = logs.old.items;
      after = logs.new.items;
      disks = map (λ disk. seen_as (D.size disk) (D.stands disk) (D.faults disk)) disks.old;
      left = map (λ disk. seen_as (D.size disk) (D.stands disk) (D.faults disk)) disks.new;
    }) (first_job peer core.now) result }
    ensures beside { StandsBeside D.tells peer (first_job peer core.now)
        (map (λ disk. seen_as (D.size disk) (D.stands disk) (D.faults disk)) disks.old)
        (map (λ disk. seen_as (D.size disk) (D.stands disk) (D.faults disk)) disks.new) }
    ensures goes_on { D.tells → (p : ℕ) → is_joining (status_of p core.now) ≡ false
        → GoesOn logs.old.items
        (map (λ disk. seen_as (D.size disk) (D.stands disk) (D.faults disk)) disks.old)
        logs.new.items
        (map (λ disk. seen_as (D.size disk) (D.stands disk) (D.faults disk)) disks.new) p }
    ensures headed { D.tells → (p : ℕ)
        → IsHeadedAt (own_header core.now.members.shape p) watch.old logs.old.items
        (map (λ disk. seen_as (D.size disk) (D.stands disk) (D.faults disk)) disks.old) p
        → StaysHeadedAt (own_header core.now.members.shape p) watch.old watch.new
        (map (λ disk. seen_as (D.size disk) (D.stands disk) (D.faults disk)) disks.old)
        logs.new.items
        (map (λ disk. seen_as (D.size disk) (D.stands disk) (D.faults disk)) disks.new) p }
    ensures later { NoneFalls
        (map (λ disk. seen_as (D.size disk) (D.stands disk) (D.faults disk)) disks.old)
        (map (λ disk. seen_as (D.size disk) (D.stands disk) (D.faults disk)) disks.new) }
    ensures paid { IfOk result (λ done. HasPaid core.now peer done
        (map (λ disk. seen_as (D.size disk) (D.stands disk) (D.faults disk)) disks.old)
        (map (λ disk. seen_as (D.size disk) (D.stands disk) (D.faults disk)) disks.new)) }
    ensures calm { IfOk result (λ done. AllStandUntold done
        (map (λ disk. seen_as (D.size disk) (D.stands disk) (D.faults disk)) disks.old)
        (map (λ disk. seen_as (D.size disk) (D.stands disk) (D.faults disk)) disks.new)) }
    ensures had { is_own (first_job peer core.now) ≡ true
        → IfOk result (λ done. IsSome (log_at logs.old.items peer)) }
    ensures reads { D.tells → is_own (first_job peer core.now) ≡ true
        → (list : Numbered) (waiting : Option Entry)
        → ((keeping : Keeping) → log_at logs.old.items peer ≡ Some keeping
        → IsKept keeping ((disk_at (stands_of (map (λ disk. seen_as (D.size disk) (D.stands disk)
        (D.faults disk)) disks.old)) peer).seen keeping.log.side) list waiting)
        → (j : Job) → first_job peer core.now ≡ Some j
        → IfOk result (λ done. ReadsLog (failed_disk done) (log_at logs.new.items peer)
        (disk_at (stands_of (map (λ disk. seen_as (D.size disk) (D.stands disk) (D.faults disk))
        disks.new)) peer) j list waiting) }
    // What is told of a block is so of a list of whose blocks those are that are cached.
    ensures told { D.tells → is_own (first_job peer core.now) ≡ true
        → (list : Numbered) (waiting : Option Entry)
        → ((keeping : Keeping) → log_at logs.old.items peer ≡ Some keeping
        → IsKept keeping ((disk_at (stands_of (map (λ disk. seen_as (D.size disk) (D.stands disk)
        (D.faults disk)) disks.old)) peer).seen keeping.log.side) list waiting)
        → ((number : ℕ) → first_job peer core.now ≡ Some (job.Read number)
        → AreBlocks cache.old (home peer core.now) list)
        → IfOk result (λ done. TellsOf done (Some list)) }
    ensures read { D.tells → is_own (first_job peer core.now) ≡ true
        → (list : Numbered) (waiting : Option Entry)
        → ((keeping : Keeping) → log_at logs.old.items peer ≡ Some keeping
        → IsKept keeping ((disk_at (stands_of (map (λ disk. seen_as (D.size disk) (D.stands disk)
        (D.faults disk)) disks.old)) peer).seen keeping.log.side) list waiting)
        → HasStored (first_job peer core.now)
        (catalogue_of (home peer core.now) core.now).blocks list
        → IfOk result (λ done. HasAllPaid core.now peer done
        (map (λ disk. seen_as (D.size disk) (D.stands disk) (D.faults disk)) disks.old)
        (map (λ disk. seen_as (D.size disk) (D.stands disk) (D.faults disk)) disks.new)) }
    ensures emptied { first_job peer core.now ≡ Some job.Reset
        → IfOk result (λ done. HasAllPaid core.now peer done
        (map (λ disk. seen_as (D.size disk) (D.stands disk) (D.faults disk)) disks.old)
        (map (λ disk. seen_as (D.size disk) (D.stands disk) (D.faults disk)) disks.new)) }
    ensures copied { D.tells → (from number : ℕ)
        → first_job peer core.now ≡ Some (job.Copy from number)
        → (list : Numbered) (waiting : Option Entry) (entry : Entry)
        → ((keeping : Keeping) → log_at logs.old.items from ≡ Some keeping
        → IsKept keeping ((disk_at (stands_of (map (λ disk. seen_as (D.size disk) (D.stands disk)
        (D.faults disk)) disks.old)) from).seen keeping.log.side) list waiting)
        → numbered_entry list number ≡ Some entry
        → IfOk result (λ done. HasAllPaid core.now peer done
        (map (λ disk. seen_as (D.size disk) (D.stands disk) (D.faults disk)) disks.old)
        (map (λ disk. seen_as (D.size disk) (D.stands disk) (D.faults disk)) disks.new)) }
    ensures ticks { watch.old ≤ watch.new }
{
    if let Some(done) = cached_read(core, logs.as_slice(), cache, peer) {
        return Ok(done);
    }
    match do_job(alloc, core, logs, disks, watch, peer) {
        Ok(done) => {
            keep_told(core, cache, peer, &done);
            Ok(done)
        }
        Err(fault) => Err(fault),
    }
}

/// What is cached for the first job of a peer, which is a Read then. Its log is in use: without one
/// no job is done. It takes no memory, and no call of a disk.
fn cached_read(
    core: &Core,
    logs: &[Option<PeerLog>],
    cache: &mut Option<Cache>,
    peer: u8,
) -> Option<Done>
    requires peer { IsPeer core.now.members.shape peer }
    requires logs { length logs.now
        ≡ core.now.members.shape.shards * core.now.members.shape.copies }
    ensures told { IfSome result (IsRecalled core.now logs.now cache.old peer) }
    ensures fewer { HasNoMore cache.old cache.new }
{
    let Some(job) = core.first_job(peer) else {
        return None;
    };
    let Job::Read { number } = job else {
        return None;
    };
    if logs[usize::from(peer)].is_none() {
        return None;
    }
    let shard = home_of(peer, core.shape());
    let Some(bytes) = recall(cache, shard, *number) else {
        return None;
    };
    are_bytes(bytes.as_slice());
    Some(Done::Bytes {
        number: *number,
        bytes,
    })
}

/// Caches what was read from the disk of a peer, where its entry has taken effect: the number of such
/// a one is never that of another.
#[tactic(auto, using(crate::proofs::RecallLemmas::keeps_same))]
fn keep_told(core: &Core, cache: &mut Option<Cache>, peer: u8, told: &Done)
    requires peer { IsPeer core.now.members.shape peer }
    ensures { KeepsRead (home peer core.now) (front_of (home peer core.now) core.now) told.now
        cache.old cache.new }
{
    let Done::Bytes { number, bytes } = told else {
        return;
    };
    let shard = home_of(peer, core.shape());
    if *number <= core.front(shard) {
        remember(cache, shard, *number, bytes);
    }
}
