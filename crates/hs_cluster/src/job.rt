//! The first job of a peer.
ghost use Rattle.std.specs.Prelude.{◌≡◌, ◌*◌, ◌+◌, ◌≤◌, ℕ, None, Option, Some, length, map, true, false, IfErr, IfOk, IsOkUnless, IsSome, OnErr, OnOk};
ghost use Rattle.hs_cluster.specs.declared.fault.ClusterFault.TheVariants.{NoMemory};
ghost use Rattle.hs_cluster.specs.Counts.{AllStandUntold, HasAllPaid, HasPaid, HasRisenTold, IsCopyPaid, IsPaid, NoneFalls, StandsUntold};
ghost use Rattle.hs_cluster.specs.Disks.{AreReady, IsSlotReady, log_at, seen_as, seen_at, stands_of};
ghost use Rattle.hs_cluster.specs.Growing.{GoesOn, SlotGoesOn};
ghost use Rattle.hs_cluster.specs.Headed.{IsHeaded, IsHeadedAt, StaysHeaded, StaysHeadedAt};
ghost use Rattle.hs_cluster.specs.Jobs.{Empties, FailsAlone, HasCopied, HasStored, ReadsOn, StandsBeside, TellsBytes, Tries, Works, is_own};
ghost use Rattle.hs_core_words.specs.Looking.{catalogue_of, first_job, home, status_of};
ghost use Rattle.hs_entry.specs.declared.entry.Entry.{Entry};
ghost use Rattle.hs_events.specs.Asked.{failed_disk};
ghost use Rattle.hs_events.specs.Due.{is_answer};
ghost use Rattle.hs_events.specs.Reports.{only_reads};
ghost use Rattle.hs_desk.specs.Answers.{answers};
ghost use Rattle.hs_desk.specs.declared.done.Done.TheVariants as done;
ghost use Rattle.hs_desk.specs.declared.job.Job.{Job};
ghost use Rattle.hs_desk.specs.declared.job.Job.TheVariants as job;
ghost use Rattle.hs_members.specs.Members.{IsPeer, is_joining};
ghost use Rattle.hs_fold.specs.Shards.Setting.{Numbered};
ghost use Rattle.hs_peerlog.specs.Caused.{IsCaused, IsOutside};
ghost use Rattle.hs_peerlog.specs.Lists.{HasLog, IsKept, IsReady, Keeping, numbered_entry};
ghost use Rattle.hs_ports.specs.Moments.{disk_at};
ghost use Rattle.hs_side.specs.declared.header.Header.{Header};
ghost use Rattle.hs_side.specs.Headers.{own_header};

use crate::ClusterFault;
use crate::work::{do_own, empty_disk, keep_copy};
use hs_core::Core;
use hs_desk::{Done, Job};
use hs_entry::Entry;
use hs_limits::PeerStatus;
use hs_members::home_of;
use hs_peerlog::{LogFault, PeerLog};
use hs_ports::{Disk, Watch};
use hs_shard::Catalogue;
use std::alloc::Global;

/// Does the first job of a peer: what it came to. A disk that fails is out of use from then on.
#[tactic(auto, using(crate::proofs::DiskLemmas::slot_at, crate::proofs::DiskLemmas::ready_slot))]
pub(crate) fn do_job<D: Disk>(
    alloc: Global,
    core: &Core,
    logs: &mut Vec<Option<PeerLog>>,
    disks: &mut [D],
    watch: &mut Watch,
    peer: u8,
) -> Result<Done, ClusterFault>
    requires peer { IsPeer core.now.members.shape peer }
    requires logs { length logs.old.items
        ≡ core.now.members.shape.shards * core.now.members.shape.copies }
    requires disks { length disks.old
        ≡ core.now.members.shape.shards * core.now.members.shape.copies }
    requires ready { AreReady D.tells logs.old.items
        (map (λ disk. seen_as (D.size disk) (D.stands disk) (D.faults disk)) disks.old) }
    ensures answer { IfOk result (λ done. is_answer core.now peer done ≡ true) }
    ensures bytes { IfOk result TellsBytes }
    ensures only { IsOkUnless result NoMemory }
    ensures ready { OnOk result (AreReady D.tells logs.new.items
        (map (λ disk. seen_as (D.size disk) (D.stands disk) (D.faults disk)) disks.new)) }
    ensures logs { length logs.new.items ≡ length logs.old.items }
    ensures disks { length disks.new ≡ length disks.old }
    // What it leaves of the disk of its peer, and of every other one.
    ensures works { D.tells → Works (own_header core.now.members.shape peer) (record {
      peer = peer;
      before = watch.old;
      now = watch.new;
      logs = logs.old.items;
      after = logs.new.items;
      disks = map (λ disk. seen_as (D.size disk) (D.stands disk) (D.faults disk)) disks.old;
      left = map (λ disk. seen_as (D.size disk) (D.stands disk) (D.faults disk)) disks.new;
    }) (first_job peer core.now) result }
    ensures beside { StandsBeside D.tells peer (first_job peer core.now)
        (map (λ disk. seen_as (D.size disk) (D.stands disk) (D.faults disk)) disks.old)
        (map (λ disk. seen_as (D.size disk) (D.stands disk) (D.faults disk)) disks.new) }
    // The list of a peer that is not joining only goes on, as long as its log is in use.
    ensures goes_on { D.tells → (p : ℕ) → is_joining (status_of p core.now) ≡ false
        → GoesOn logs.old.items
        (map (λ disk. seen_as (D.size disk) (D.stands disk) (D.faults disk)) disks.old)
        logs.new.items
        (map (λ disk. seen_as (D.size disk) (D.stands disk) (D.faults disk)) disks.new) p }
    // A stop leaves no header on the disk of a peer but its own, where it left none before.
    ensures headed { D.tells → (p : ℕ)
        → IsHeadedAt (own_header core.now.members.shape p) watch.old logs.old.items
        (map (λ disk. seen_as (D.size disk) (D.stands disk) (D.faults disk)) disks.old) p
        → StaysHeadedAt (own_header core.now.members.shape p) watch.old watch.new
        (map (λ disk. seen_as (D.size disk) (D.stands disk) (D.faults disk)) disks.old)
        logs.new.items
        (map (λ disk. seen_as (D.size disk) (D.stands disk) (D.faults disk)) disks.new) p }
    // No count falls. That of a disk whose failed call is told rose, but for a job that only read.
    ensures later { NoneFalls
        (map (λ disk. seen_as (D.size disk) (D.stands disk) (D.faults disk)) disks.old)
        (map (λ disk. seen_as (D.size disk) (D.stands disk) (D.faults disk)) disks.new) }
    ensures paid { IfOk result (λ done. HasPaid core.now peer done
        (map (λ disk. seen_as (D.size disk) (D.stands disk) (D.faults disk)) disks.old)
        (map (λ disk. seen_as (D.size disk) (D.stands disk) (D.faults disk)) disks.new)) }
    // The count of a disk stands, but of one whose failed call is told.
    ensures calm { IfOk result (λ done. AllStandUntold done
        (map (λ disk. seen_as (D.size disk) (D.stands disk) (D.faults disk)) disks.old)
        (map (λ disk. seen_as (D.size disk) (D.stands disk) (D.faults disk)) disks.new)) }
    // What reads of the log of its peer give then, whatever a stop leaves; without one it isn't done.
    ensures had { is_own (first_job peer core.now) ≡ true
        → IfOk result (λ done. IsSome (log_at logs.old.items peer)) }
    ensures reads { D.tells → is_own (first_job peer core.now) ≡ true
        → (list : Numbered) (waiting : Option Entry)
        → ((keeping : Keeping) → log_at logs.old.items peer ≡ Some keeping
        → IsKept keeping ((disk_at (stands_of (map (λ disk. seen_as (D.size disk) (D.stands disk)
        (D.faults disk)) disks.old)) peer).seen keeping.log.side) list waiting)
        → (j : Job) → first_job peer core.now ≡ Some j
        → IfOk result (ReadsOn (log_at logs.new.items peer)
        (disk_at (stands_of (map (λ disk. seen_as (D.size disk) (D.stands disk) (D.faults disk))
        disks.new)) peer) j list waiting) }
    // Of a job that only read too, where the list of its log has what the catalogue says.
    ensures read { D.tells → is_own (first_job peer core.now) ≡ true
        → (list : Numbered) (waiting : Option Entry)
        → ((keeping : Keeping) → log_at logs.old.items peer ≡ Some keeping
        → IsKept keeping ((disk_at (stands_of (map (λ disk. seen_as (D.size disk) (D.stands disk)
        (D.faults disk)) disks.old)) peer).seen keeping.log.side) list waiting)
        → HasStored (first_job peer core.now)
        (catalogue_of (home peer core.now) core.now).blocks list
        → IfOk result (λ done. HasAllPaid core.now peer done
        (map (λ disk. seen_as (D.size disk) (D.stands disk) (D.faults disk)) disks.old)
        (map (λ disk. seen_as (D.size disk) (D.stands disk) (D.faults disk)) disks.new)) }
    // So of an emptying; and of a copying step, where the list from which it reads has the entry.
    ensures emptied { first_job peer core.now ≡ Some job.Reset
        → IfOk result (λ done. HasAllPaid core.now peer done
        (map (λ disk. seen_as (D.size disk) (D.stands disk) (D.faults disk)) disks.old)
        (map (λ disk. seen_as (D.size disk) (D.stands disk) (D.faults disk)) disks.new)) }
    ensures copied { D.tells → (from number : ℕ)
        → first_job peer core.now ≡ Some (job.Copy from number)
        → (list : Numbered) (waiting : Option Entry) (entry : Entry)
        → ((keeping : Keeping) → log_at logs.old.items from ≡ Some keeping
        → IsKept keeping ((disk_at (stands_of (map (λ disk. seen_as (D.size disk) (D.stands disk)
        (D.faults disk)) disks.old)) from).seen keeping.log.side) list waiting)
        → numbered_entry list number ≡ Some entry
        → IfOk result (λ done. HasAllPaid core.now peer done
        (map (λ disk. seen_as (D.size disk) (D.stands disk) (D.faults disk)) disks.old)
        (map (λ disk. seen_as (D.size disk) (D.stands disk) (D.faults disk)) disks.new)) }
    ensures ticks { watch.old ≤ watch.new }
{
    let Some(job) = core.first_job(peer) else {
        return Err(ClusterFault::NoMemory);
    };
    let place = usize::from(peer);
    match job {
        Job::Reset => do_reset(
            alloc,
            core,
            &mut logs[place],
            &mut disks[place],
            watch,
            peer,
        ),
        Job::Copy { from, number } => do_copy(logs, disks, watch, peer, *from, *number),
        Job::Append { .. } | Job::Seal { .. } | Job::Read { .. } | Job::Reclaim => {
            let catalogue = core.catalogue(home_of(peer, core.shape()));
            do_usual(
                &mut logs[place],
                &mut disks[place],
                watch,
                peer,
                job,
                catalogue,
            )
        }
    }
}

/// Copies the entry of a number from the disk of another peer, behind the list of its own.
#[tactic(auto, using(crate::proofs::DiskLemmas::slot_at, crate::proofs::DiskLemmas::ready_slot, crate::proofs::CountLemmas::falls_not, crate::proofs::CountLemmas::read_failed))]
fn do_copy<D: Disk>(
    logs: &mut Vec<Option<PeerLog>>,
    disks: &mut [D],
    watch: &mut Watch,
    peer: u8,
    from: u8,
    number: u64,
) -> Result<Done, ClusterFault>
    requires logs { peer + 1 ≤ length logs.old.items }
    requires count { length disks.old ≡ length logs.old.items }
    requires ready { AreReady D.tells logs.old.items
        (map (λ disk. seen_as (D.size disk) (D.stands disk) (D.faults disk)) disks.old) }
    ensures answer { IfOk result (λ told. answers peer (job.Copy from number) told ≡ true) }
    ensures bytes { IfOk result TellsBytes }
    ensures only { IsOkUnless result NoMemory }
    ensures ready { OnOk result (AreReady D.tells logs.new.items
        (map (λ disk. seen_as (D.size disk) (D.stands disk) (D.faults disk)) disks.new)) }
    ensures logs { length logs.new.items ≡ length logs.old.items }
    ensures disks { length disks.new ≡ length disks.old }
    ensures works { (head : Header) → D.tells → Works head (record {
      peer = peer;
      before = watch.old;
      now = watch.new;
      logs = logs.old.items;
      after = logs.new.items;
      disks = map (λ disk. seen_as (D.size disk) (D.stands disk) (D.faults disk)) disks.old;
      left = map (λ disk. seen_as (D.size disk) (D.stands disk) (D.faults disk)) disks.new;
    }) (Some (job.Copy from number)) result }
    ensures beside { StandsBeside D.tells peer (Some (job.Copy from number))
        (map (λ disk. seen_as (D.size disk) (D.stands disk) (D.faults disk)) disks.old)
        (map (λ disk. seen_as (D.size disk) (D.stands disk) (D.faults disk)) disks.new) }
    ensures goes_on { D.tells → (p : ℕ) → GoesOn logs.old.items
        (map (λ disk. seen_as (D.size disk) (D.stands disk) (D.faults disk)) disks.old)
        logs.new.items
        (map (λ disk. seen_as (D.size disk) (D.stands disk) (D.faults disk)) disks.new) p }
    ensures headed { D.tells → (p : ℕ) → (header : Header)
        → IsHeadedAt header watch.old logs.old.items
        (map (λ disk. seen_as (D.size disk) (D.stands disk) (D.faults disk)) disks.old) p
        → StaysHeadedAt header watch.old watch.new
        (map (λ disk. seen_as (D.size disk) (D.stands disk) (D.faults disk)) disks.old)
        logs.new.items
        (map (λ disk. seen_as (D.size disk) (D.stands disk) (D.faults disk)) disks.new) p }
    ensures later { NoneFalls
        (map (λ disk. seen_as (D.size disk) (D.stands disk) (D.faults disk)) disks.old)
        (map (λ disk. seen_as (D.size disk) (D.stands disk) (D.faults disk)) disks.new) }
    ensures paid { IfOk result (IsCopyPaid from peer
        (seen_at (map (λ disk. seen_as (D.size disk) (D.stands disk) (D.faults disk)) disks.old)
        peer).faults
        (seen_at (map (λ disk. seen_as (D.size disk) (D.stands disk) (D.faults disk)) disks.new)
        peer).faults) }
    ensures calm { IfOk result (λ done. AllStandUntold done
        (map (λ disk. seen_as (D.size disk) (D.stands disk) (D.faults disk)) disks.old)
        (map (λ disk. seen_as (D.size disk) (D.stands disk) (D.faults disk)) disks.new)) }
    // Where the list of the lead's log has the entry, a failed read of it is at the count too.
    ensures read { D.tells → (list : Numbered) (waiting : Option Entry) (entry : Entry)
        → ((keeping : Keeping) → log_at logs.old.items from ≡ Some keeping
        → IsKept keeping ((disk_at (stands_of (map (λ disk. seen_as (D.size disk) (D.stands disk)
        (D.faults disk)) disks.old)) from).seen keeping.log.side) list waiting)
        → numbered_entry list number ≡ Some entry
        → IfOk result (λ done. HasRisenTold done
        (map (λ disk. seen_as (D.size disk) (D.stands disk) (D.faults disk)) disks.old)
        (map (λ disk. seen_as (D.size disk) (D.stands disk) (D.faults disk)) disks.new)) }
    ensures ticks { watch.old ≤ watch.new }
{
    let source = usize::from(from);
    if source >= logs.len() {
        return Err(ClusterFault::NoMemory);
    }
    match read_copy(&mut logs[source], &mut disks[source], number) {
        Ok(entry) => {
            let place = usize::from(peer);
            write_copy(
                &mut logs[place],
                &mut disks[place],
                watch,
                peer,
                number,
                &entry,
            )
        }
        Err(fault) => failed_read(fault, from),
    }
}

/// What a copying step tells where its read of the lead's disk was refused.
fn failed_read(fault: LogFault, from: u8) -> Result<Done, ClusterFault>
    ensures told { IfOk result (λ told. told ≡ done.Failed from) }
    ensures only { IsOkUnless result NoMemory }
    ensures memory { IfOk result (λ told. fault ≡ LogFault.NoMemory → ⊥) }
{
    match fault {
        LogFault::NoMemory => Err(ClusterFault::NoMemory),
        LogFault::Disk | LogFault::NotALog { .. } | LogFault::WrongShape { .. } => {
            Ok(Done::Failed { disk: from })
        }
    }
}

/// Does a job that needs the log of its peer alone.
fn do_usual<D: Disk>(
    slot: &mut Option<PeerLog>,
    disk: &mut D,
    watch: &mut Watch,
    peer: u8,
    job: &Job,
    catalogue: &Catalogue,
) -> Result<Done, ClusterFault>
    requires usual { is_own (Some job.now) ≡ true }
    requires ready { IsSlotReady D.tells slot.old (D.size disk.old) (D.stands disk.old) }
    ensures answer { IfOk result (λ told. answers peer job.now told ≡ true) }
    ensures bytes { IfOk result TellsBytes }
    ensures only { IsOkUnless result NoMemory }
    ensures ready { OnOk result
        (IsSlotReady D.tells slot.new (D.size disk.new) (D.stands disk.new)) }
    ensures tries { D.tells → (D.stands disk.old).last ≤ watch.old → Tries (record {
      before = watch.old;
      now = watch.new;
      slot = slot.old;
      kept = slot.new;
      old = D.stands disk.old;
      new = D.stands disk.new;
    }) (Some job.now) result }
    ensures fails { IfOk result (FailsAlone peer) }
    ensures goes_on { D.tells
        → SlotGoesOn slot.old slot.new (D.stands disk.old) (D.stands disk.new) }
    ensures headed { D.tells → (header : Header)
        → IsHeaded header watch.old slot.old (D.stands disk.old)
        → StaysHeaded header watch.old watch.new (D.stands disk.old) (D.stands disk.new)
        slot.new }
    ensures later { D.faults disk.old ≤ D.faults disk.new }
    ensures paid { (at : ℕ) → only_reads at job.now ≡ false
        → IfOk result (IsPaid peer (D.faults disk.old) (D.faults disk.new)) }
    ensures calm { IfOk result (StandsUntold peer (D.faults disk.old) (D.faults disk.new)) }
    ensures had { IfOk result (λ told. IsSome slot.old) }
    ensures reads { D.tells → is_own (Some job.now) ≡ true
        → (list : Numbered) (waiting : Option Entry)
        → ((keeping : Keeping) → slot.old ≡ Some keeping
        → IsKept keeping ((D.stands disk.old).seen keeping.log.side) list waiting)
        → IfOk result (ReadsOn slot.new (D.stands disk.new) job.now list waiting) }
    ensures read { D.tells → (list : Numbered) (waiting : Option Entry)
        → ((keeping : Keeping) → slot.old ≡ Some keeping
        → IsKept keeping ((D.stands disk.old).seen keeping.log.side) list waiting)
        → HasStored (Some job.now) catalogue.now.blocks list
        → IfOk result (IsPaid peer (D.faults disk.old) (D.faults disk.new)) }
    ensures ticks { watch.old ≤ watch.new }
{
    let Some(log) = slot.take() else {
        return Err(ClusterFault::NoMemory);
    };
    let mut log = log;
    match do_own(&mut log, disk, watch, job, catalogue) {
        Ok(done) => {
            *slot = Some(log);
            Ok(done)
        }
        Err(LogFault::NoMemory) => Err(ClusterFault::NoMemory),
        Err(LogFault::Disk) | Err(LogFault::NotALog { .. }) | Err(LogFault::WrongShape { .. }) => {
            Ok(Done::Failed { disk: peer })
        }
    }
}

/// Empties the disk of a peer that is joining. Its log is in use from then on. That of a peer which
/// is not joining is never emptied: it counts as want of memory.
fn do_reset<D: Disk>(
    alloc: Global,
    core: &Core,
    slot: &mut Option<PeerLog>,
    disk: &mut D,
    watch: &mut Watch,
    peer: u8,
) -> Result<Done, ClusterFault>
    requires peer { IsPeer core.now.members.shape peer }
    ensures answer { IfOk result (λ told. answers peer job.Reset told ≡ true) }
    ensures bytes { IfOk result TellsBytes }
    ensures only { IsOkUnless result NoMemory }
    ensures ready { OnOk result
        (IsSlotReady D.tells slot.new (D.size disk.new) (D.stands disk.new)) }
    ensures empties { D.tells → (D.stands disk.old).last ≤ watch.old
        → Empties (own_header core.now.members.shape peer) (record {
          before = watch.old;
          now = watch.new;
          slot = slot.old;
          kept = slot.new;
          old = D.stands disk.old;
          new = D.stands disk.new;
        }) result }
    ensures fails { IfOk result (FailsAlone peer) }
    ensures goes_on { D.tells → is_joining (status_of peer core.now) ≡ false
        → SlotGoesOn slot.old slot.new (D.stands disk.old) (D.stands disk.new) }
    ensures headed { D.tells
        → IsHeaded (own_header core.now.members.shape peer) watch.old slot.old
        (D.stands disk.old)
        → StaysHeaded (own_header core.now.members.shape peer) watch.old watch.new
        (D.stands disk.old) (D.stands disk.new) slot.new }
    ensures later { D.faults disk.old ≤ D.faults disk.new }
    ensures paid { IfOk result (IsPaid peer (D.faults disk.old) (D.faults disk.new)) }
    ensures calm { IfOk result (StandsUntold peer (D.faults disk.old) (D.faults disk.new)) }
    ensures ticks { watch.old ≤ watch.new }
{
    if !is_joining(core.status(peer)) {
        return Err(ClusterFault::NoMemory);
    }
    *slot = None;
    match empty_disk(alloc, disk, watch, core.shape(), peer) {
        Ok(log) => {
            *slot = Some(log);
            Ok(Done::Emptied)
        }
        Err(LogFault::NoMemory) => Err(ClusterFault::NoMemory),
        Err(LogFault::Disk) | Err(LogFault::NotALog { .. }) | Err(LogFault::WrongShape { .. }) => {
            Ok(Done::Failed { disk: peer })
        }
    }
}

/// Whether a status is Joining.
fn is_joining(status: PeerStatus) -> bool
    ensures { result ≡ is_joining status }
{
    match status {
        PeerStatus::Joining => true,
        PeerStatus::Good | PeerStatus::Down => false,
    }
}

/// The entry of a number on the disk of a peer. Where that fails, or has no such entry, the disk is
/// out of use from then on.
fn read_copy<D: Disk>(
    slot: &mut Option<PeerLog>,
    disk: &mut D,
    number: u64,
) -> Result<Entry, LogFault>
    requires ready { IsSlotReady D.tells slot.old (D.size disk.old) (D.stands disk.old) }
    ensures ready { IsSlotReady D.tells slot.new (D.size disk.new) (D.stands disk.new) }
    ensures kept { OnOk result (slot.new ≡ slot.old) }
    ensures out { OnErr result (slot.new ≡ None) }
    ensures found { D.tells → (keeping : Keeping) (list : Numbered) (waiting : Option Entry)
        → slot.old ≡ Some keeping
        → IsKept keeping ((D.stands disk.old).seen keeping.log.side) list waiting
        → IfOk result (λ entry. numbered_entry list number ≡ Some entry) }
    ensures same { D.tells → D.stands disk.new ≡ D.stands disk.old }
    ensures refused { D.tells → (list : Numbered) (waiting : Option Entry) (entry : Entry)
        → ((keeping : Keeping) → slot.old ≡ Some keeping
        → IsKept keeping ((D.stands disk.old).seen keeping.log.side) list waiting)
        → numbered_entry list number ≡ Some entry → IfErr result IsOutside }
    ensures later { D.faults disk.old ≤ D.faults disk.new }
    ensures calm { OnOk result (D.faults disk.new ≡ D.faults disk.old) }
    ensures cause { IsCaused (D.faults disk.old) (D.faults disk.new) result }
{
    let Some(log) = slot.take() else {
        return Err(LogFault::NoMemory);
    };
    let entry = read_sealed(&log, disk, number)?;
    *slot = Some(log);
    Ok(entry)
}

/// The entry of a number, which is kept.
fn read_sealed<D: Disk>(log: &PeerLog, disk: &mut D, number: u64) -> Result<Entry, LogFault>
    requires ready { IsReady D.tells log.now (D.size disk.old log.now.log.side)
        (D.stands disk.old) }
    ensures ready { OnOk result (IsReady D.tells log.now (D.size disk.new log.now.log.side)
        (D.stands disk.new)) }
    ensures found { D.tells → (list : Numbered) (waiting : Option Entry)
        → IsKept log.now ((D.stands disk.old).seen log.now.log.side) list waiting
        → IfOk result (λ entry. numbered_entry list number ≡ Some entry) }
    ensures same { D.tells → D.stands disk.new ≡ D.stands disk.old }
    ensures refused { D.tells → (list : Numbered) (waiting : Option Entry) (entry : Entry)
        → IsKept log.now ((D.stands disk.old).seen log.now.log.side) list waiting
        → numbered_entry list number ≡ Some entry → IfErr result IsOutside }
    ensures later { D.faults disk.old ≤ D.faults disk.new }
    ensures calm { OnOk result (D.faults disk.new ≡ D.faults disk.old) }
    ensures cause { IsCaused (D.faults disk.old) (D.faults disk.new) result }
{
    match log.read_entry(disk, number)? {
        Some(entry) => Ok(entry),
        None => Err(LogFault::NotALog { at: number }),
    }
}

/// Appends and seals an entry that was copied.
fn write_copy<D: Disk>(
    slot: &mut Option<PeerLog>,
    disk: &mut D,
    watch: &mut Watch,
    peer: u8,
    number: u64,
    entry: &Entry,
) -> Result<Done, ClusterFault>
    requires ready { IsSlotReady D.tells slot.old (D.size disk.old) (D.stands disk.old) }
    ensures answer { (from : ℕ) → IfOk result (λ told.
        answers peer (job.Copy from number) told ≡ true) }
    ensures bytes { IfOk result TellsBytes }
    ensures only { IsOkUnless result NoMemory }
    ensures ready { OnOk result
        (IsSlotReady D.tells slot.new (D.size disk.new) (D.stands disk.new)) }
    ensures copies { (from : ℕ) (source list : Numbered) (waiting : Option Entry)
        (keeping : Keeping) → D.tells → (D.stands disk.old).last ≤ watch.old
        → numbered_entry source number ≡ Some entry.now → slot.old ≡ Some keeping
        → HasLog keeping (D.stands disk.old) list waiting
        → HasCopied (record {
          before = watch.old;
          now = watch.new;
          slot = slot.old;
          kept = slot.new;
          old = D.stands disk.old;
          new = D.stands disk.new;
        }) peer from number source list result }
    ensures fails { IfOk result (FailsAlone peer) }
    ensures goes_on { D.tells
        → SlotGoesOn slot.old slot.new (D.stands disk.old) (D.stands disk.new) }
    ensures headed { D.tells → (header : Header)
        → IsHeaded header watch.old slot.old (D.stands disk.old)
        → StaysHeaded header watch.old watch.new (D.stands disk.old) (D.stands disk.new)
        slot.new }
    ensures later { D.faults disk.old ≤ D.faults disk.new }
    ensures paid { IfOk result (IsPaid peer (D.faults disk.old) (D.faults disk.new)) }
    ensures calm { IfOk result (StandsUntold peer (D.faults disk.old) (D.faults disk.new)) }
    ensures ticks { watch.old ≤ watch.new }
{
    let Some(log) = slot.take() else {
        return Err(ClusterFault::NoMemory);
    };
    let mut log = log;
    match keep_copy(&mut log, disk, watch, number, entry) {
        Ok(()) => {
            *slot = Some(log);
            Ok(Done::Copied { number })
        }
        Err(LogFault::NoMemory) => Err(ClusterFault::NoMemory),
        Err(LogFault::Disk) | Err(LogFault::NotALog { .. }) | Err(LogFault::WrongShape { .. }) => {
            Ok(Done::Failed { disk: peer })
        }
    }
}
