//! Making the log of a peer equal to the taken one.
ghost use Rattle.std.specs.Prelude.{◌≡◌, ◌+◌, ◌<◌, ◌≤◌, [], ℕ, None, Some, IfErr, IfOk, OnOk, length, map};
ghost use Rattle.std.proofs.Common.{◌≢◌};
ghost use Rattle.hs_entry.specs.declared.entry.Entry.{Entry};
ghost use Rattle.hs_entry.specs.Reading.{IsReadable};
ghost use Rattle.hs_fold.specs.Shards.Setting.{Numbered};
ghost use Rattle.hs_peerlog.specs.Caused.{IsCalm, IsCaused, IsOutside};
ghost use Rattle.hs_peerlog.specs.Heads.{KeepsHeader};
ghost use Rattle.hs_peerlog.specs.Images.{IsAny, IsOne, LeavesEach};
ghost use Rattle.hs_peerlog.specs.Lists.{HasLog, IsKept, IsReady, numbered_entry, with_waiting};
ghost use Rattle.hs_peerlog.specs.Opening.{refusal_in};
ghost use Rattle.hs_peerlog.specs.Views.{IsAsViewed};
ghost use Rattle.hs_ports.specs.declared.disk.Side.{Side};
ghost use Rattle.hs_side.specs.declared.header.Header.{Header};
ghost use Rattle.hs_side.specs.Headers.{own_header};
ghost use Rattle.hs_taking.specs.Copies.{fronts};
ghost use Rattle.hs_taking.specs.Disks.{seen_as, seen_at};
ghost use Rattle.hs_taking.specs.Headed.{IsUnder, KeepsItsHeader};
ghost use Rattle.hs_taking.specs.Pairs.{HasEmptied, HasFilled, HasMadeEqual, IsPairFault, IsStill};
ghost use Rattle.hs_taking.specs.Past.{PastStays};

use crate::pair::{PairFault, other_fault, taken_fault};
use hs_entry::Entry;
use hs_limits::Shape;
use hs_peerlog::{LogFault, PeerLog, PeerView};
use hs_ports::{Disk, Watch};
use hs_readable::is_readable;

/// The log of a peer, which was emptied and has the entries of the taken log, whose disk is at the
/// place `from`.
pub(crate) fn even_at<D: Disk>(
    taken: &PeerLog,
    view: PeerView,
    disks: &mut [D],
    from: usize,
    place: usize,
    watch: &mut Watch,
    shape: Shape,
    peer: u8,
) -> Result<PeerLog, PairFault>
    requires from { from < length disks.old }
    requires place { place < length disks.old }
    requires apart { from ≢ place }
    requires taken { IsReady D.tells taken.now
        ((seen_at (map (λ disk. seen_as (D.size disk) (D.stands disk) (D.faults disk)) disks.old)
        from).size taken.now.log.side)
        (seen_at (map (λ disk. seen_as (D.size disk) (D.stands disk) (D.faults disk)) disks.old)
        from).stands }
    requires sealed { taken.now.waits ≡ None }
    requires viewed { IsAsViewed D.tells view
        ((seen_at (map (λ disk. seen_as (D.size disk) (D.stands disk) (D.faults disk)) disks.old)
        place).size view.log.side)
        (seen_at (map (λ disk. seen_as (D.size disk) (D.stands disk) (D.faults disk)) disks.old)
        place).stands }
    requires accepted { D.tells → refusal_in shape peer
        (seen_at (map (λ disk. seen_as (D.size disk) (D.stands disk) (D.faults disk)) disks.old)
        place).stands.seen ≡ None }
    ensures made { HasMadeEqual D.tells watch.old watch.new
        (seen_at (map (λ disk. seen_as (D.size disk) (D.stands disk) (D.faults disk)) disks.old)
        from)
        (seen_at (map (λ disk. seen_as (D.size disk) (D.stands disk) (D.faults disk)) disks.new)
        from)
        (seen_at (map (λ disk. seen_as (D.size disk) (D.stands disk) (D.faults disk)) disks.old)
        place)
        (seen_at (map (λ disk. seen_as (D.size disk) (D.stands disk) (D.faults disk)) disks.new)
        place) taken.now result }
    ensures own { D.tells → IfOk result (IsUnder (own_header shape peer)) }
    ensures headed { KeepsItsHeader D.tells (own_header shape peer) watch.old watch.new
        (seen_at (map (λ disk. seen_as (D.size disk) (D.stands disk) (D.faults disk)) disks.old)
        place)
        (seen_at (map (λ disk. seen_as (D.size disk) (D.stands disk) (D.faults disk)) disks.new)
        place) }
    ensures rest { (other : ℕ) → other ≢ from → other ≢ place
        → seen_at (map (λ disk. seen_as (D.size disk) (D.stands disk) (D.faults disk)) disks.new)
        other
        ≡ seen_at (map (λ disk. seen_as (D.size disk) (D.stands disk) (D.faults disk)) disks.old)
        other }
    ensures count { length disks.new ≡ length disks.old }
{
    if from < place {
        let (low, high) = disks.split_at_mut(place);
        even_out(
            taken,
            &mut low[from],
            view,
            &mut high[0],
            watch,
            shape,
            peer,
        )
    } else {
        let (low, high) = disks.split_at_mut(from);
        even_out(
            taken,
            &mut high[0],
            view,
            &mut low[place],
            watch,
            shape,
            peer,
        )
    }
}

/// The log of a view, emptied and filled with the entries of the taken log.
fn even_out<D: Disk>(
    taken: &PeerLog,
    source: &mut D,
    view: PeerView,
    disk: &mut D,
    watch: &mut Watch,
    shape: Shape,
    peer: u8,
) -> Result<PeerLog, PairFault>
    requires taken { IsReady D.tells taken.now (D.size source.old taken.now.log.side)
        (D.stands source.old) }
    requires sealed { taken.now.waits ≡ None }
    requires viewed { IsAsViewed D.tells view (D.size disk.old view.log.side)
        (D.stands disk.old) }
    requires accepted { D.tells → refusal_in shape peer (D.stands disk.old).seen ≡ None }
    ensures made { HasMadeEqual D.tells watch.old watch.new
        (seen_as (D.size source.old) (D.stands source.old) (D.faults source.old))
        (seen_as (D.size source.new) (D.stands source.new) (D.faults source.new))
        (seen_as (D.size disk.old) (D.stands disk.old) (D.faults disk.old))
        (seen_as (D.size disk.new) (D.stands disk.new) (D.faults disk.new)) taken.now result }
    ensures own { D.tells → IfOk result (IsUnder (own_header shape peer)) }
    ensures headed { KeepsItsHeader D.tells (own_header shape peer) watch.old watch.new
        (seen_as (D.size disk.old) (D.stands disk.old) (D.faults disk.old))
        (seen_as (D.size disk.new) (D.stands disk.new) (D.faults disk.new)) }
{
    let mut copy = match empty_log(view, disk, watch, shape, peer) {
        Ok(copy) => copy,
        Err(fault) => return Err(other_fault(fault)),
    };
    match fill_log(taken, source, &mut copy, disk, watch) {
        Ok(()) => Ok(copy),
        Err(fault) => Err(fault),
    }
}

/// The log of a view, without its entries: where it has none nothing is emptied.
fn empty_log<D: Disk>(
    view: PeerView,
    disk: &mut D,
    watch: &mut Watch,
    shape: Shape,
    peer: u8,
) -> Result<PeerLog, LogFault>
    requires viewed { IsAsViewed D.tells view (D.size disk.old view.log.side)
        (D.stands disk.old) }
    requires accepted { D.tells → refusal_in shape peer (D.stands disk.old).seen ≡ None }
    ensures emptied { HasEmptied D.tells watch.old watch.new
        (seen_as (D.size disk.old) (D.stands disk.old) (D.faults disk.old))
        (seen_as (D.size disk.new) (D.stands disk.new) (D.faults disk.new)) result }
    ensures own { D.tells → IfOk result (IsUnder (own_header shape peer)) }
    ensures headed { KeepsItsHeader D.tells (own_header shape peer) watch.old watch.new
        (seen_as (D.size disk.old) (D.stands disk.old) (D.faults disk.old))
        (seen_as (D.size disk.new) (D.stands disk.new) (D.faults disk.new)) }
    ensures refused { D.tells → IfErr result IsOutside }
    ensures ticks { watch.old ≤ watch.new }
    ensures calm { IsCalm (D.faults disk.old) (D.faults disk.new) result }
    ensures cause { IsCaused (D.faults disk.old) (D.faults disk.new) result }
{
    let mut log = match PeerLog::from_view(view, disk, watch, shape, peer) {
        Ok(log) => log,
        Err(fault) => return Err(fault),
    };
    if log.last() == 0 {
        return Ok(log);
    }
    match log.reset(disk, watch) {
        Ok(()) => {}
        Err(fault) => return Err(fault),
    }
    if log.last() != 0 {
        return Err(LogFault::NoMemory);
    }
    Ok(log)
}

/// Gives an empty log the entries of the taken one, one after another.
fn fill_log<D: Disk>(
    taken: &PeerLog,
    source: &mut D,
    copy: &mut PeerLog,
    disk: &mut D,
    watch: &mut Watch,
) -> Result<(), PairFault>
    requires taken { IsReady D.tells taken.now (D.size source.old taken.now.log.side)
        (D.stands source.old) }
    requires sealed { taken.now.waits ≡ None }
    requires ready { IsReady D.tells copy.old (D.size disk.old copy.old.log.side)
        (D.stands disk.old) }
    requires none { copy.old.waits ≡ None }
    requires empty { copy.old.rank.number ≡ 0 }
    ensures filled { HasFilled D.tells watch.old watch.new
        (seen_as (D.size source.old) (D.stands source.old) (D.faults source.old))
        (seen_as (D.size source.new) (D.stands source.new) (D.faults source.new))
        (seen_as (D.size disk.old) (D.stands disk.old) (D.faults disk.old))
        (seen_as (D.size disk.new) (D.stands disk.new) (D.faults disk.new)) taken.now copy.old }
    ensures ready { OnOk result (IsReady D.tells copy.new (D.size disk.new copy.new.log.side)
        (D.stands disk.new)) }
    ensures has { D.tells → (D.stands disk.old).last ≤ watch.old → (list : Numbered)
        → IsKept taken.now ((D.stands source.old).seen taken.now.log.side) list None
        → HasLog copy.old (D.stands disk.old) [] None
        → OnOk result (HasLog copy.new (D.stands disk.new) list None) }
    ensures head { OnOk result (copy.new.log.head ≡ copy.old.log.head) }
    ensures headed { D.tells → (D.stands disk.old).last ≤ watch.old → (list : Numbered)
        → IsKept taken.now ((D.stands source.old).seen taken.now.log.side) list None
        → HasLog copy.old (D.stands disk.old) [] None → (head : Header × ℕ)
        → copy.old.log.head ≡ Some head → KeepsHeader watch.old (D.stands disk.new) head.0 }
    ensures calm { OnOk result ((D.faults source.new ≡ D.faults source.old)
        × (D.faults disk.new ≡ D.faults disk.old)) }
    ensures cause { IfErr result (IsPairFault D.tells
        (seen_as (D.size source.old) (D.stands source.old) (D.faults source.old))
        (seen_as (D.size source.new) (D.stands source.new) (D.faults source.new))
        (seen_as (D.size disk.old) (D.stands disk.old) (D.faults disk.old))
        (seen_as (D.size disk.new) (D.stands disk.new) (D.faults disk.new))) }
{
    'entries: for index in 0..taken.last() {
        match fill_entry(taken, source, copy, disk, watch, index + 1) {
            Ok(()) => {}
            Err(fault) => return Err(fault),
        }
    }
    Ok(())
}

/// Gives a log its next entry, from the taken one.
fn fill_entry<D: Disk>(
    taken: &PeerLog,
    source: &mut D,
    copy: &mut PeerLog,
    disk: &mut D,
    watch: &mut Watch,
    number: u64,
) -> Result<(), PairFault>
    requires taken { IsReady D.tells taken.now (D.size source.old taken.now.log.side)
        (D.stands source.old) }
    requires within { number ≤ taken.now.rank.number }
    requires ready { IsReady D.tells copy.old (D.size disk.old copy.old.log.side)
        (D.stands disk.old) }
    requires none { copy.old.waits ≡ None }
    requires next { number ≡ copy.old.rank.number + 1 }
    ensures source { IsStill D.tells
        (seen_as (D.size source.old) (D.stands source.old) (D.faults source.old))
        (seen_as (D.size source.new) (D.stands source.new) (D.faults source.new)) }
    ensures ready { OnOk result (IsReady D.tells copy.new (D.size disk.new copy.new.log.side)
        (D.stands disk.new)) }
    ensures sealed { OnOk result (copy.new.waits ≡ None) }
    ensures rank { OnOk result (copy.new.rank.number ≡ number) }
    ensures has { D.tells → (D.stands disk.old).last ≤ watch.old → (list own : Numbered)
        → (entry : Entry) → IsKept taken.now ((D.stands source.old).seen taken.now.log.side) list None
        → numbered_entry list number ≡ Some entry → HasLog copy.old (D.stands disk.old) own None
        → OnOk result (HasLog copy.new (D.stands disk.new) (with_waiting own entry) None) }
    ensures moments { D.tells → (D.stands disk.old).last ≤ watch.old → (list own : Numbered)
        → (entry : Entry) → IsKept taken.now ((D.stands source.old).seen taken.now.log.side) list None
        → numbered_entry list number ≡ Some entry → HasLog copy.old (D.stands disk.old) own None
        → LeavesEach watch.old watch.new (D.stands disk.old) (D.stands disk.new)
        (IsOne own (with_waiting own entry)) }
    ensures head { OnOk result (copy.new.log.head ≡ copy.old.log.head) }
    ensures headed { D.tells → (D.stands disk.old).last ≤ watch.old → (own : Numbered)
        → HasLog copy.old (D.stands disk.old) own None → (head : Header × ℕ)
        → copy.old.log.head ≡ Some head → KeepsHeader watch.old (D.stands disk.new) head.0 }
    ensures past { D.tells → (D.stands disk.old).last ≤ watch.old
        → PastStays watch.old watch.new (D.stands disk.old) (D.stands disk.new) }
    ensures counted { D.faults disk.old ≤ D.faults disk.new }
    ensures calm { OnOk result ((D.faults source.new ≡ D.faults source.old)
        × (D.faults disk.new ≡ D.faults disk.old)) }
    ensures cause { IfErr result (IsPairFault D.tells
        (seen_as (D.size source.old) (D.stands source.old) (D.faults source.old))
        (seen_as (D.size source.new) (D.stands source.new) (D.faults source.new))
        (seen_as (D.size disk.old) (D.stands disk.old) (D.faults disk.old))
        (seen_as (D.size disk.new) (D.stands disk.new) (D.faults disk.new))) }
    ensures ticks { watch.old ≤ watch.new }
{
    let entry = match taken_entry(taken, source, number) {
        Ok(entry) => entry,
        Err(fault) => return Err(taken_fault(fault)),
    };
    match write_entry(copy, disk, watch, number, &entry) {
        Ok(()) => Ok(()),
        Err(fault) => Err(other_fault(fault)),
    }
}

/// The entry of a number of a log, which has so many.
fn taken_entry<D: Disk>(log: &PeerLog, disk: &mut D, number: u64) -> Result<Entry, LogFault>
    requires ready { IsReady D.tells log.now (D.size disk.old log.now.log.side)
        (D.stands disk.old) }
    requires some { 0 < number }
    requires within { number ≤ log.now.rank.number }
    ensures found { D.tells → (list : Numbered)
        → IsKept log.now ((D.stands disk.old).seen log.now.log.side) list None
        → IfOk result (λ entry. numbered_entry list number ≡ Some entry) }
    ensures refused { D.tells → IfErr result IsOutside }
    ensures same { D.tells → D.stands disk.new ≡ D.stands disk.old }
    ensures same_size { (side : Side) → D.size disk.new side ≡ D.size disk.old side }
    ensures calm { IsCalm (D.faults disk.old) (D.faults disk.new) result }
    ensures cause { IsCaused (D.faults disk.old) (D.faults disk.new) result }
{
    match log.read_entry(disk, number) {
        Ok(Some(entry)) => Ok(entry),
        Ok(None) => Err(LogFault::NotALog { at: number }),
        Err(fault) => Err(fault),
    }
}

/// Appends an entry to a log, and seals it. One that may not stand there counts as want of memory.
fn write_entry<D: Disk>(
    log: &mut PeerLog,
    disk: &mut D,
    watch: &mut Watch,
    number: u64,
    entry: &Entry,
) -> Result<(), LogFault>
    requires ready { IsReady D.tells log.old (D.size disk.old log.old.log.side)
        (D.stands disk.old) }
    requires none { log.old.waits ≡ None }
    requires next { number ≡ log.old.rank.number + 1 }
    ensures ready { OnOk result (IsReady D.tells log.new (D.size disk.new log.new.log.side)
        (D.stands disk.new)) }
    ensures sealed { OnOk result (log.new.waits ≡ None) }
    ensures rank { OnOk result (log.new.rank.number ≡ number) }
    ensures has { D.tells → (D.stands disk.old).last ≤ watch.old → (own : Numbered)
        → HasLog log.old (D.stands disk.old) own None
        → OnOk result (HasLog log.new (D.stands disk.new) (with_waiting own entry.now) None) }
    ensures moments { D.tells → (D.stands disk.old).last ≤ watch.old → (own : Numbered)
        → HasLog log.old (D.stands disk.old) own None
        → LeavesEach watch.old watch.new (D.stands disk.old) (D.stands disk.new)
        (IsOne own (with_waiting own entry.now)) }
    ensures head { OnOk result (log.new.log.head ≡ log.old.log.head) }
    ensures headed { D.tells → (D.stands disk.old).last ≤ watch.old → (own : Numbered)
        → HasLog log.old (D.stands disk.old) own None → (head : Header × ℕ)
        → log.old.log.head ≡ Some head → KeepsHeader watch.old (D.stands disk.new) head.0 }
    ensures past { D.tells → (D.stands disk.old).last ≤ watch.old
        → PastStays watch.old watch.new (D.stands disk.old) (D.stands disk.new) }
    ensures refused { IfErr result IsOutside }
    ensures ticks { watch.old ≤ watch.new }
    ensures calm { IsCalm (D.faults disk.old) (D.faults disk.new) result }
    ensures cause { IsCaused (D.faults disk.old) (D.faults disk.new) result }
{
    if !is_readable(entry) {
        return Err(LogFault::NoMemory);
    }
    match log.append(disk, watch, number, entry) {
        Ok(()) => log.seal(disk, watch),
        Err(fault) => Err(fault),
    }
}
