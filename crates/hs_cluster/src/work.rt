//! One job on the disk of a peer.
ghost use Rattle.std.specs.Option.{option_map};
ghost use Rattle.std.specs.Prelude.{◌≡◌, ◌⊎◌, ◌+◌, ◌==◌, ◌&&◌, ◌≤◌, ℕ, List, [], Option, None, Some, not, true, false, is_some, IfOk, IfErr, OnOk};
ghost use Rattle.hs_cluster.specs.Headed.{IsHeaded, LeavesHeaded};
ghost use Rattle.hs_cluster.specs.Jobs.{AreBytes, HasStored, IsAnyOrNone, Leaves, ReadsOn, TellsBytes, is_own, sealed_list};
ghost use Rattle.hs_desk.specs.Answers.{answers};
ghost use Rattle.hs_desk.specs.declared.done.Done.TheVariants as done;
ghost use Rattle.hs_desk.specs.declared.job.Job.TheVariants as job;
ghost use Rattle.hs_entry.specs.declared.entry.Entry.{Entry};
ghost use Rattle.hs_entry.specs.declared.entry.Entry.TheVariants.{Block};
ghost use Rattle.hs_events.specs.Asked.{failed_disk};
ghost use Rattle.hs_events.specs.Reports.{TellsOf, only_reads};
ghost use Rattle.hs_fold.specs.Shards.Setting.{Numbered};
ghost use Rattle.hs_peerlog.specs.Caused.{IsCalm, IsCaused, IsOutside};
ghost use Rattle.hs_peerlog.specs.Heads.{KeepsHeader, LeavesHeader};
ghost use Rattle.hs_peerlog.specs.Images.{Is, IsOne, LeavesAny, LeavesEach};
ghost use Rattle.hs_peerlog.specs.Lists.{HasLog, IsKept, IsReady, with_waiting};
ghost use Rattle.hs_shard.specs.Facts.{pointers_at};
ghost use Rattle.hs_side.specs.declared.header.Header.{Header};
ghost use Rattle.hs_side.specs.Headers.{own_header};
ghost use Rattle.hs_taking.specs.Past.{PastStays};

use hs_desk::{Done, Job};
use hs_entry::Entry;
use hs_limits::Shape;
use hs_peerlog::{LogFault, PeerLog};
use hs_ports::{Disk, Watch};
use hs_readable::is_readable;
use hs_shard::Catalogue;
use std::alloc::Global;

/// Does a job on the disk of a peer, whose log this is; `catalogue` is that of its shard. What it
/// came to. A job that does not follow the log counts as want of memory.
pub(crate) fn do_own<D: Disk>(
    log: &mut PeerLog,
    disk: &mut D,
    watch: &mut Watch,
    job: &Job,
    catalogue: &Catalogue,
) -> Result<Done, LogFault>
    requires ready { IsReady D.tells log.old (D.size disk.old log.old.log.side)
        (D.stands disk.old) }
    ensures ready { OnOk result (IsReady D.tells log.new (D.size disk.new log.new.log.side)
        (D.stands disk.new)) }
    ensures answer { (peer : ℕ) → IfOk result (λ told. answers peer job.now told ≡ true) }
    // Each moment leaves the list before the job or the one behind it, Err too.
    ensures leaves { D.tells → (D.stands disk.old).last ≤ watch.old
        → (list : Numbered) (waiting : Option Entry)
        → HasLog log.old (D.stands disk.old) list waiting
        → Leaves (record {
          before = watch.old;
          now = watch.new;
          slot = Some log.old;
          kept = Some log.new;
          old = D.stands disk.old;
          new = D.stands disk.new;
        }) job.now list waiting result }
    ensures done { IfOk result (λ told. failed_disk told ≡ None) }
    ensures bytes { IfOk result TellsBytes }
    // But for a read, a call that is refused is one that failed; and so is a read, where the list has
    // what the catalogue says.
    ensures refused { (at : ℕ) → only_reads at job.now ≡ false → IfErr result IsOutside }
    // Of a job that needs this log alone: what reads give behind it, whatever a stop leaves.
    ensures reads { D.tells → is_own (Some job.now) ≡ true
        → (list : Numbered) (waiting : Option Entry)
        → IsKept log.old ((D.stands disk.old).seen log.old.log.side) list waiting
        → IfOk result (ReadsOn (Some log.new) (D.stands disk.new) job.now list waiting) }
    // And whose header a stop leaves.
    ensures headed { D.tells → is_own (Some job.now) ≡ true → (header : Header)
        → IsHeaded header watch.old (Some log.old) (D.stands disk.old)
        → LeavesHeaded header watch.old watch.new (D.stands disk.old) (D.stands disk.new)
        log.new result }
    ensures failed { D.tells → (list : Numbered) (waiting : Option Entry)
        → IsKept log.old ((D.stands disk.old).seen log.old.log.side) list waiting
        → HasStored (Some job.now) catalogue.now.blocks list → IfErr result IsOutside }
    ensures ticks { watch.old ≤ watch.new }
    ensures calm { IsCalm (D.faults disk.old) (D.faults disk.new) result }
    ensures cause { IsCaused (D.faults disk.old) (D.faults disk.new) result }
{
    match job {
        Job::Append { number, entry } => {
            append_entry(log, disk, watch, *number, entry)?;
            Ok(Done::Stored { number: *number })
        }
        Job::Seal { number } => {
            seal_entry(log, disk, watch, *number)?;
            Ok(Done::Sealed { number: *number })
        }
        Job::Read { number } => read_block(log, disk, *number, catalogue),
        Job::Reset => {
            log.reset(disk, watch)?;
            Ok(Done::Emptied)
        }
        Job::Copy { .. } => Err(LogFault::NoMemory),
        Job::Reclaim => Ok(Done::Stepped { switched: true }),
    }
}

/// Appends the entry of a number, where it is the next one.
pub(crate) fn append_entry<D: Disk>(
    log: &mut PeerLog,
    disk: &mut D,
    watch: &mut Watch,
    number: u64,
    entry: &Entry,
) -> Result<(), LogFault>
    requires ready { IsReady D.tells log.old (D.size disk.old log.old.log.side)
        (D.stands disk.old) }
    ensures ready { OnOk result (IsReady D.tells log.new (D.size disk.new log.new.log.side)
        (D.stands disk.new)) }
    ensures list { D.tells → (D.stands disk.old).last ≤ watch.old
        → (list : Numbered) (waiting : Option Entry)
        → HasLog log.old (D.stands disk.old) list waiting
        → OnOk result (HasLog log.new (D.stands disk.new) list (Some entry.now)) }
    ensures reads { D.tells → (list : Numbered) (waiting : Option Entry)
        → IsKept log.old ((D.stands disk.old).seen log.old.log.side) list waiting
        → OnOk result (IsKept log.new ((D.stands disk.new).seen log.new.log.side) list
        (Some entry.now)) }
    ensures next { OnOk result (number ≡ log.old.rank.number + 1) }
    ensures headed { D.tells → (header : Header)
        → IsHeaded header watch.old (Some log.old) (D.stands disk.old)
        → LeavesHeaded header watch.old watch.new (D.stands disk.old) (D.stands disk.new)
        log.new result }
    ensures any_moment { D.tells → (D.stands disk.old).last ≤ watch.old
        → (list : Numbered) (waiting : Option Entry)
        → HasLog log.old (D.stands disk.old) list waiting
        → LeavesEach watch.old watch.new (D.stands disk.old) (D.stands disk.new) (Is list) }
    ensures refused { IfErr result IsOutside }
    ensures ticks { watch.old ≤ watch.new }
    ensures calm { IsCalm (D.faults disk.old) (D.faults disk.new) result }
    ensures cause { IsCaused (D.faults disk.old) (D.faults disk.new) result }
{
    if !is_next(log, number) || !is_readable(entry) {
        return Err(LogFault::NoMemory);
    }
    log.append(disk, watch, number, entry)
}

/// Whether nothing waits to be sealed, and this is the next number.
fn is_next(log: &PeerLog, number: u64) -> bool
    ensures value { result ≡ (not (is_some log.now.waits) && log.now.rank.number + 1 == number) }
    ensures next { result ≡ true → number ≡ log.now.rank.number + 1 }
    ensures none { result ≡ true → log.now.waits ≡ None }
{
    if log.unsealed().is_some() {
        return false;
    }
    match log.last().checked_add(1) {
        Some(next) => next == number,
        None => false,
    }
}

/// Seals the entry that waits, where it has this number.
#[tactic(auto, using(crate::proofs::CountLemmas::outside_disk))]
fn seal_entry<D: Disk>(
    log: &mut PeerLog,
    disk: &mut D,
    watch: &mut Watch,
    number: u64,
) -> Result<(), LogFault>
    requires ready { IsReady D.tells log.old (D.size disk.old log.old.log.side)
        (D.stands disk.old) }
    ensures ready { OnOk result (IsReady D.tells log.new (D.size disk.new log.new.log.side)
        (D.stands disk.new)) }
    ensures list { D.tells → (D.stands disk.old).last ≤ watch.old
        → (list : Numbered) (waiting : Option Entry)
        → HasLog log.old (D.stands disk.old) list waiting
        → OnOk result (HasLog log.new (D.stands disk.new) (sealed_list list waiting) None) }
    ensures reads { D.tells → (list : Numbered) (waiting : Option Entry)
        → IsKept log.old ((D.stands disk.old).seen log.old.log.side) list waiting
        → OnOk result (IsKept log.new ((D.stands disk.new).seen log.new.log.side)
        (sealed_list list waiting) None) }
    ensures number { OnOk result
        (option_map (λ rank. rank.number) log.old.waits ≡ Some number) }
    ensures headed { D.tells → (header : Header)
        → IsHeaded header watch.old (Some log.old) (D.stands disk.old)
        → LeavesHeaded header watch.old watch.new (D.stands disk.old) (D.stands disk.new)
        log.new result }
    ensures any_moment { D.tells → (D.stands disk.old).last ≤ watch.old
        → (list : Numbered) (waiting : Option Entry)
        → HasLog log.old (D.stands disk.old) list waiting
        → LeavesEach watch.old watch.new (D.stands disk.old) (D.stands disk.new)
        (IsOne list (sealed_list list waiting)) }
    ensures refused { IfErr result IsOutside }
    ensures ticks { watch.old ≤ watch.new }
    ensures calm { IsCalm (D.faults disk.old) (D.faults disk.new) result }
    ensures cause { IsCaused (D.faults disk.old) (D.faults disk.new) result }
{
    match log.unsealed() {
        Some(waits) if waits == number => log.seal(disk, watch),
        _ => Err(LogFault::NoMemory),
    }
}

/// The block of the entry of a number. Where no such entry is kept it is gone, unless the shard still
/// has it: then the disk does not give its list. A number of another entry does not follow the log.
fn read_block<D: Disk>(
    log: &PeerLog,
    disk: &mut D,
    number: u64,
    catalogue: &Catalogue,
) -> Result<Done, LogFault>
    requires ready { IsReady D.tells log.now (D.size disk.old log.now.log.side)
        (D.stands disk.old) }
    ensures ready { IsReady D.tells log.now (D.size disk.new log.now.log.side)
        (D.stands disk.new) }
    ensures answer { (peer : ℕ) → IfOk result (λ told. answers peer (job.Read number) told ≡ true) }
    ensures gone { IfOk result (λ told. told ≡ done.Gone number
        → is_some (pointers_at number catalogue.now.blocks) ≡ false) }
    ensures same { D.tells → D.stands disk.new ≡ D.stands disk.old }
    ensures told { D.tells → (list : Numbered) (waiting : Option Entry)
        → IsKept log.now ((D.stands disk.old).seen log.now.log.side) list waiting
        → IfOk result (λ told. TellsOf told (Some list)) }
    ensures done { IfOk result (λ told. failed_disk told ≡ None) }
    ensures bytes { IfOk result TellsBytes }
    ensures refused { D.tells → (list : Numbered) (waiting : Option Entry)
        → IsKept log.now ((D.stands disk.old).seen log.now.log.side) list waiting
        → HasStored (Some (job.Read number)) catalogue.now.blocks list → IfErr result IsOutside }
    ensures calm { IsCalm (D.faults disk.old) (D.faults disk.new) result }
    ensures cause { IsCaused (D.faults disk.old) (D.faults disk.new) result }
{
    match log.read_entry(disk, number)? {
        Some(entry) => block_of(number, entry),
        None => {
            if is_stored(catalogue, number) {
                return Err(LogFault::NotALog { at: number });
            }
            Ok(Done::Gone { number })
        }
    }
}

/// What a Read tells of an entry, where it is a block's.
fn block_of(number: u64, entry: Entry) -> Result<Done, LogFault>
    ensures value { (op least : ℕ) (bytes : List ℕ) → entry ≡ Block op least bytes
        → IfOk result (λ told. told ≡ done.Bytes number bytes) }
    ensures some { IfOk result (λ told. (op : ℕ) × (least : ℕ) × (bytes : List ℕ)
        × (entry ≡ Block op least bytes) × (told ≡ done.Bytes number bytes)) }
    ensures bytes { IfOk result TellsBytes }
    ensures not_disk { IfErr result (λ fault. fault ≡ LogFault.NoMemory) }
{
    match entry {
        Entry::Block { bytes, .. } => {
            are_bytes(bytes.as_slice());
            Ok(Done::Bytes { number, bytes })
        }
        _ => Err(LogFault::NoMemory),
    }
}

/// Bytes are below 256, as every byte is.
pub(crate) fn are_bytes(bytes: &[u8])
    ensures { AreBytes bytes.now }
{}

/// Whether a present block was stored by the entry of a number.
#[tactic(auto, using(crate::proofs::FindLemmas::stored_here, crate::proofs::FindLemmas::stored_later, crate::proofs::FindLemmas::stored_nowhere, crate::proofs::FindLemmas::none_told))]
fn is_stored(catalogue: &Catalogue, number: u64) -> bool
    ensures { result ≡ is_some (pointers_at number catalogue.now.blocks) }
{
    for place in 0..catalogue.count() {
        if let Some(facts) = catalogue.facts(place) {
            if facts.number == number {
                return true;
            }
        }
    }
    false
}

/// Empties the disk of a peer: its log, where it is one, and else whatever is on it.
pub(crate) fn empty_disk<D: Disk>(
    alloc: Global,
    disk: &mut D,
    watch: &mut Watch,
    shape: Shape,
    peer: u8,
) -> Result<PeerLog, LogFault>
    ensures ready { IfOk result (λ log. IsReady D.tells log (D.size disk.new log.log.side)
        (D.stands disk.new)) }
    ensures list { D.tells → (D.stands disk.old).last ≤ watch.old
        → IfOk result (λ log. HasLog log (D.stands disk.new) [] None) }
    ensures own { D.tells → IfOk result (λ log. (generation : ℕ)
        × (log.log.head ≡ Some (own_header shape peer, generation))) }
    // Where a stop left no other peer's header, no moment leaves one; and where whatever it left had
    // one of some lists too, each moment leaves one of these, or the empty one.
    ensures any_moment { D.tells → (D.stands disk.old).last ≤ watch.old
        → (lists : ℕ → Numbered) → LeavesAny (D.stands disk.old) lists
        → LeavesHeader (D.stands disk.old) (own_header shape peer)
        → LeavesEach watch.old watch.new (D.stands disk.old) (D.stands disk.new)
        (IsAnyOrNone lists) }
    ensures headed { D.tells → (D.stands disk.old).last ≤ watch.old
        → LeavesHeader (D.stands disk.old) (own_header shape peer)
        → KeepsHeader watch.old (D.stands disk.new) (own_header shape peer) }
    ensures past { D.tells → (D.stands disk.old).last ≤ watch.old
        → PastStays watch.old watch.new (D.stands disk.old) (D.stands disk.new) }
    ensures refused { IfErr result IsOutside }
    ensures ticks { watch.old ≤ watch.new }
    ensures calm { IsCalm (D.faults disk.old) (D.faults disk.new) result }
    ensures cause { IsCaused (D.faults disk.old) (D.faults disk.new) result }
{
    match PeerLog::recover(alloc, disk, watch, shape, peer) {
        Ok(log) => empty_log(log, disk, watch),
        Err(fault) => {
            if is_outside(fault) {
                return Err(fault);
            }
            PeerLog::clear(alloc, disk, watch, shape, peer)
        }
    }
}

/// Empties a log.
fn empty_log<D: Disk>(log: PeerLog, disk: &mut D, watch: &mut Watch) -> Result<PeerLog, LogFault>
    requires ready { IsReady D.tells log (D.size disk.old log.log.side) (D.stands disk.old) }
    ensures ready { IfOk result (λ emptied. IsReady D.tells emptied
        (D.size disk.new emptied.log.side) (D.stands disk.new)) }
    ensures list { D.tells → (D.stands disk.old).last ≤ watch.old → (list : Numbered)
        → HasLog log (D.stands disk.old) list None
        → IfOk result (λ emptied. HasLog emptied (D.stands disk.new) [] None) }
    ensures head { IfOk result (λ emptied. emptied.log.head ≡ log.log.head) }
    ensures any_moment { D.tells → (D.stands disk.old).last ≤ watch.old → (list : Numbered)
        → HasLog log (D.stands disk.old) list None
        → LeavesEach watch.old watch.new (D.stands disk.old) (D.stands disk.new) (IsOne list []) }
    ensures headed { D.tells → (D.stands disk.old).last ≤ watch.old → (list : Numbered)
        → HasLog log (D.stands disk.old) list None → (head : Header × ℕ)
        → log.log.head ≡ Some head → KeepsHeader watch.old (D.stands disk.new) head.0 }
    ensures past { D.tells → (D.stands disk.old).last ≤ watch.old
        → PastStays watch.old watch.new (D.stands disk.old) (D.stands disk.new) }
    ensures refused { IfErr result IsOutside }
    ensures ticks { watch.old ≤ watch.new }
    ensures calm { IsCalm (D.faults disk.old) (D.faults disk.new) result }
    ensures cause { IsCaused (D.faults disk.old) (D.faults disk.new) result }
{
    let mut emptied = log;
    emptied.reset(disk, watch)?;
    Ok(emptied)
}

/// Whether the disk failed, or memory ran out.
fn is_outside(fault: LogFault) -> bool
    ensures yes { result ≡ true → IsOutside fault }
    ensures no { result ≡ false → IsOutside fault → ⊥ }
{
    match fault {
        LogFault::Disk | LogFault::NoMemory => true,
        LogFault::NotALog { .. } | LogFault::WrongShape { .. } => false,
    }
}

/// Appends and seals an entry that was copied, under its number.
pub(crate) fn keep_copy<D: Disk>(
    log: &mut PeerLog,
    disk: &mut D,
    watch: &mut Watch,
    number: u64,
    entry: &Entry,
) -> Result<(), LogFault>
    requires ready { IsReady D.tells log.old (D.size disk.old log.old.log.side)
        (D.stands disk.old) }
    ensures ready { OnOk result (IsReady D.tells log.new (D.size disk.new log.new.log.side)
        (D.stands disk.new)) }
    ensures list { D.tells → (D.stands disk.old).last ≤ watch.old
        → (list : Numbered) (waiting : Option Entry)
        → HasLog log.old (D.stands disk.old) list waiting
        → OnOk result (HasLog log.new (D.stands disk.new)
        (with_waiting list entry.now) None) }
    ensures reads { D.tells → (list : Numbered) (waiting : Option Entry)
        → IsKept log.old ((D.stands disk.old).seen log.old.log.side) list waiting
        → OnOk result (IsKept log.new ((D.stands disk.new).seen log.new.log.side)
        (with_waiting list entry.now) None) }
    ensures next { OnOk result (number ≡ log.old.rank.number + 1) }
    ensures headed { D.tells → (header : Header)
        → IsHeaded header watch.old (Some log.old) (D.stands disk.old)
        → LeavesHeaded header watch.old watch.new (D.stands disk.old) (D.stands disk.new)
        log.new result }
    // Each moment leaves the list before, or that with the entry, which has this number then.
    ensures any_moment { D.tells → (D.stands disk.old).last ≤ watch.old
        → (list : Numbered) (waiting : Option Entry)
        → HasLog log.old (D.stands disk.old) list waiting
        → LeavesEach watch.old watch.new (D.stands disk.old) (D.stands disk.new)
        (λ l. (l ≡ list) ⊎ (number ≡ log.old.rank.number + 1)
        × (l ≡ with_waiting list entry.now)) }
    ensures refused { IfErr result IsOutside }
    ensures ticks { watch.old ≤ watch.new }
    ensures calm { IsCalm (D.faults disk.old) (D.faults disk.new) result }
    ensures cause { IsCaused (D.faults disk.old) (D.faults disk.new) result }
{
    append_entry(log, disk, watch, number, entry)?;
    seal_entry(log, disk, watch, number)
}
