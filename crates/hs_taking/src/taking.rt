//! Taking the log of a shard.
ghost use Rattle.std.specs.Prelude.{◌≡◌, ◌*◌, ◌<◌, ◌≤◌, ℕ, IfOk, IsOkUnless, None, OnOk, is_some, length, map};
ghost use Rattle.hs_limits.specs.Shape.{IsShape};
ghost use Rattle.hs_memory.specs.Forget.{apply_all};
ghost use Rattle.hs_shard.specs.Facts.{empty_catalogue};
ghost use Rattle.hs_taking.specs.declared.fault.TakeFault.TheVariants.{NoMemory};
ghost use Rattle.hs_taking.specs.declared.slot.Slot.TheVariants as kind;
ghost use Rattle.hs_side.specs.Headers.{own_header};
ghost use Rattle.hs_taking.specs.Copies.{IsOf};
ghost use Rattle.hs_taking.specs.Disks.{seen_as, seen_at};
ghost use Rattle.hs_taking.specs.Evens.{AreEvened, AreMoved, IsFresh, IsRecovered, TakesShard, TakesView, has_kept, log_of, viewed_of};
ghost use Rattle.hs_taking.specs.Headed.{KeepTheirHeaders, KeepsItsHeader, OwnTheirLogs, OwnsLog};
ghost use Rattle.hs_taking.specs.Shares.{KeepsDisk};
ghost use Rattle.hs_taking.specs.Slots.{IsSlot, log_in, slot_at};
ghost use Rattle.hs_taking.specs.Viewed.{IsViewOf};

use crate::TakeFault;
use crate::copies::compare_copies;
use crate::leveling::level_copies;
use crate::loading::{Loaded, load};
use crate::pair::is_memory;
use crate::shares::{Share, empty_share, lost_share};
use crate::slot::{Slot, Source};
use hs_block::Addresser;
use hs_limits::{Limits, Shape, peer_of};
use hs_peerlog::{PeerLog, PeerView};
use hs_ports::{Disk, Watch};
use std::alloc::Global;
use std::mem::replace;

/// Takes the log of a peer of a shard, where it was viewed: applies it whole, and makes each other
/// list of the shard equal to it. Where the taken log was lost, the shard goes on with the logs that
/// were found or made equal by then, and without one it opens with nothing.
pub(crate) fn take_shard<A: Addresser, D: Disk>(
    alloc: Global,
    naming: &A,
    slots: &mut Vec<Slot>,
    disks: &mut [D],
    watch: &mut Watch,
    shape: Shape,
    limits: Limits,
    peer: u8,
    shard: u8,
) -> Result<Share, TakeFault>
    requires shape { IsShape shape }
    requires shard { shard < shape.shards }
    requires count { length disks.old ≡ shape.shards * shape.copies }
    requires slots { length slots.old.items ≡ shape.shards * shape.copies }
    requires peer { IsOf shape shard peer }
    requires within { peer < shape.shards * shape.copies }
    requires viewed { (other : ℕ) → IsOf shape shard other → IsSlot D.tells shape other
        (seen_at (map (λ disk. seen_as (D.size disk) (D.stands disk) (D.faults disk)) disks.old)
        other) (slot_at slots.old.items other) }
    requires fresh { (other : ℕ) → IsOf shape shard other
        → IsFresh (slot_at slots.old.items other) }
    ensures takes { IfOk result (TakesShard D.tells (apply_all (A.name naming.now)
        (empty_catalogue shape shard)) shape shard peer watch.old watch.new
        (map (λ disk. seen_as (D.size disk) (D.stands disk) (D.faults disk)) disks.old)
        (map (λ disk. seen_as (D.size disk) (D.stands disk) (D.faults disk)) disks.new)
        slots.old.items slots.new.items) }
    ensures moved { AreMoved D.tells shape shard peer watch.old watch.new
        (map (λ disk. seen_as (D.size disk) (D.stands disk) (D.faults disk)) disks.old)
        (map (λ disk. seen_as (D.size disk) (D.stands disk) (D.faults disk)) disks.new)
        slots.old.items }
    ensures own { OwnTheirLogs D.tells shape (λ p. log_of (slot_at slots.old.items p))
        → OnOk result (OwnTheirLogs D.tells shape (λ p. log_of (slot_at slots.new.items p))) }
    ensures headed { KeepTheirHeaders D.tells shape watch.old watch.new
        (map (λ disk. seen_as (D.size disk) (D.stands disk) (D.faults disk)) disks.old)
        (map (λ disk. seen_as (D.size disk) (D.stands disk) (D.faults disk)) disks.new) }
    ensures idle { viewed_of (slot_at slots.old.items peer) ≡ None → disks.new ≡ disks.old }
    ensures shard { IfOk result (λ share. share.shard ≡ shard) }
    ensures peer { IfOk result (λ share. share.peer ≡ peer) }
    ensures only { IsOkUnless result NoMemory }
    ensures count { length disks.new ≡ length disks.old }
    ensures slots { length slots.new.items ≡ length slots.old.items }
    ensures ticks { watch.old ≤ watch.new }
{
    let place = usize::from(peer);
    let slot = replace(&mut slots[place], Slot::Aside);
    match viewed_of(slot) {
        Some(view) => take_viewed(
            alloc, naming, view, slots, disks, watch, shape, limits, peer, shard,
        ),
        None => Ok(empty_share(alloc, shape, limits, peer, shard)),
    }
}

/// The view of a slot, where one is there that was not compared.
fn viewed_of(slot: Slot) -> Option<PeerView>
    ensures { result ≡ viewed_of slot }
{
    match slot {
        Slot::Viewed(view) => Some(view),
        Slot::Aside | Slot::Equal(_) | Slot::Kept(_) => None,
    }
}

/// Takes the log of a view.
fn take_viewed<A: Addresser, D: Disk>(
    alloc: Global,
    naming: &A,
    view: PeerView,
    slots: &mut Vec<Slot>,
    disks: &mut [D],
    watch: &mut Watch,
    shape: Shape,
    limits: Limits,
    peer: u8,
    shard: u8,
) -> Result<Share, TakeFault>
    requires shape { IsShape shape }
    requires shard { shard < shape.shards }
    requires count { length disks.old ≡ shape.shards * shape.copies }
    requires slots { length slots.old.items ≡ shape.shards * shape.copies }
    requires peer { IsOf shape shard peer }
    requires within { peer < shape.shards * shape.copies }
    requires aside { slot_at slots.old.items peer ≡ kind.Aside }
    requires taken { IsViewOf D.tells shape peer
        (seen_at (map (λ disk. seen_as (D.size disk) (D.stands disk) (D.faults disk)) disks.old)
        peer) view }
    requires viewed { (other : ℕ) → IsOf shape shard other → IsSlot D.tells shape other
        (seen_at (map (λ disk. seen_as (D.size disk) (D.stands disk) (D.faults disk)) disks.old)
        other) (slot_at slots.old.items other) }
    requires fresh { (other : ℕ) → IsOf shape shard other
        → IsFresh (slot_at slots.old.items other) }
    ensures takes { IfOk result (TakesView D.tells (apply_all (A.name naming.now)
        (empty_catalogue shape shard)) shape shard peer watch.old watch.new
        (map (λ disk. seen_as (D.size disk) (D.stands disk) (D.faults disk)) disks.old)
        (map (λ disk. seen_as (D.size disk) (D.stands disk) (D.faults disk)) disks.new)
        slots.old.items slots.new.items view) }
    ensures moved { AreMoved D.tells shape shard peer watch.old watch.new
        (map (λ disk. seen_as (D.size disk) (D.stands disk) (D.faults disk)) disks.old)
        (map (λ disk. seen_as (D.size disk) (D.stands disk) (D.faults disk)) disks.new)
        slots.old.items }
    ensures own { OwnTheirLogs D.tells shape (λ p. log_of (slot_at slots.old.items p))
        → OnOk result (OwnTheirLogs D.tells shape (λ p. log_of (slot_at slots.new.items p))) }
    ensures headed { KeepTheirHeaders D.tells shape watch.old watch.new
        (map (λ disk. seen_as (D.size disk) (D.stands disk) (D.faults disk)) disks.old)
        (map (λ disk. seen_as (D.size disk) (D.stands disk) (D.faults disk)) disks.new) }
    ensures outside { OnOk result ((other : ℕ) → (IsOf shape shard other → ⊥)
        → slot_at slots.new.items other ≡ slot_at slots.old.items other) }
    ensures shard { IfOk result (λ share. share.shard ≡ shard) }
    ensures peer { IfOk result (λ share. share.peer ≡ peer) }
    ensures only { IsOkUnless result NoMemory }
    ensures count { length disks.new ≡ length disks.old }
    ensures slots { length slots.new.items ≡ length slots.old.items }
    ensures ticks { watch.old ≤ watch.new }
{
    let took = view.last();
    let place = usize::from(peer);
    let loaded = match load(
        alloc,
        naming,
        &view,
        &mut disks[place],
        shape,
        limits,
        shard,
    ) {
        Ok(loaded) => loaded,
        Err(fault) => {
            if is_memory(fault) {
                return Err(TakeFault::NoMemory);
            }
            let lost = Some(watch.now());
            return Ok(lost_share(alloc, shape, limits, peer, shard, took, lost));
        }
    };
    let lost = match even_shard(view, slots, disks, watch, shape, peer, shard) {
        Ok(lost) => lost,
        Err(fault) => return Err(fault),
    };
    if !has_kept(slots.as_slice(), shape, shard) {
        return Ok(lost_share(alloc, shape, limits, peer, shard, took, lost));
    }
    let Loaded { catalogue, rank } = loaded;
    Ok(Share {
        shard,
        peer,
        catalogue,
        rank,
        took: Some(took),
        lost,
    })
}

/// Whether the log of a peer of the shard is kept.
fn has_kept(slots: &[Slot], shape: Shape, shard: u8) -> bool
    requires shape { IsShape shape }
    requires shard { shard < shape.shards }
    requires count { length slots.now ≡ shape.shards * shape.copies }
    ensures { result ≡ has_kept shape slots.now shard }
{
    for copy in 0..shape.copies {
        let place = usize::from(peer_of(shard, copy, shape));
        if is_kept(&slots[place]) {
            return true;
        }
    }
    false
}

/// Whether a log is kept.
fn is_kept(slot: &Slot) -> bool
    ensures { result ≡ is_some (log_of slot.now) }
{
    match slot {
        Slot::Kept(_) => true,
        Slot::Aside | Slot::Viewed(_) | Slot::Equal(_) => false,
    }
}

/// Finds the lists of a shard's peers equal to the taken one, or makes them so: nothing is written
/// before all were compared. When the taken log was lost, where it was: who was not found or made
/// equal by then stands aside.
fn even_shard<D: Disk>(
    view: PeerView,
    slots: &mut Vec<Slot>,
    disks: &mut [D],
    watch: &mut Watch,
    shape: Shape,
    peer: u8,
    shard: u8,
) -> Result<Option<u64>, TakeFault>
    requires shape { IsShape shape }
    requires shard { shard < shape.shards }
    requires count { length disks.old ≡ shape.shards * shape.copies }
    requires slots { length slots.old.items ≡ shape.shards * shape.copies }
    requires peer { IsOf shape shard peer }
    requires within { peer < shape.shards * shape.copies }
    requires aside { slot_at slots.old.items peer ≡ kind.Aside }
    requires taken { IsViewOf D.tells shape peer
        (seen_at (map (λ disk. seen_as (D.size disk) (D.stands disk) (D.faults disk)) disks.old)
        peer) view }
    requires viewed { (other : ℕ) → IsOf shape shard other → IsSlot D.tells shape other
        (seen_at (map (λ disk. seen_as (D.size disk) (D.stands disk) (D.faults disk)) disks.old)
        other) (slot_at slots.old.items other) }
    ensures evened { IfOk result (AreEvened D.tells shape shard peer watch.old watch.new
        (map (λ disk. seen_as (D.size disk) (D.stands disk) (D.faults disk)) disks.old)
        (map (λ disk. seen_as (D.size disk) (D.stands disk) (D.faults disk)) disks.new)
        slots.old.items slots.new.items) }
    ensures moved { AreMoved D.tells shape shard peer watch.old watch.new
        (map (λ disk. seen_as (D.size disk) (D.stands disk) (D.faults disk)) disks.old)
        (map (λ disk. seen_as (D.size disk) (D.stands disk) (D.faults disk)) disks.new)
        slots.old.items }
    ensures own { OwnTheirLogs D.tells shape (λ p. log_of (slot_at slots.old.items p))
        → OnOk result (OwnTheirLogs D.tells shape (λ p. log_of (slot_at slots.new.items p))) }
    ensures headed { KeepTheirHeaders D.tells shape watch.old watch.new
        (map (λ disk. seen_as (D.size disk) (D.stands disk) (D.faults disk)) disks.old)
        (map (λ disk. seen_as (D.size disk) (D.stands disk) (D.faults disk)) disks.new) }
    ensures outside { OnOk result ((other : ℕ) → (IsOf shape shard other → ⊥)
        → slot_at slots.new.items other ≡ slot_at slots.old.items other) }
    ensures only { IsOkUnless result NoMemory }
    ensures count { length disks.new ≡ length disks.old }
    ensures slots { length slots.new.items ≡ length slots.old.items }
    ensures ticks { watch.old ≤ watch.new }
{
    let lost = match compare_copies(&view, slots, disks, shape, peer, shard) {
        Ok(lost) => lost,
        Err(fault) => return Err(fault),
    };
    let place = usize::from(peer);
    let mut source = match recover_taken(view, lost, &mut disks[place], watch, shape, peer) {
        Ok(source) => source,
        Err(fault) => return Err(fault),
    };
    match level_copies(&mut source, slots, disks, watch, shape, peer, shard) {
        Ok(()) => {}
        Err(fault) => return Err(fault),
    }
    match source {
        Source::Kept(log) => {
            slots[place] = Slot::Kept(log);
            Ok(None)
        }
        Source::Lost(moment) => Ok(Some(moment)),
    }
}

/// The taken log, from its view, unless its disk failed.
fn recover_taken<D: Disk>(
    view: PeerView,
    lost: bool,
    disk: &mut D,
    watch: &mut Watch,
    shape: Shape,
    peer: u8,
) -> Result<Source, TakeFault>
    requires viewed { IsViewOf D.tells shape peer
        (seen_as (D.size disk.old) (D.stands disk.old) (D.faults disk.old)) view }
    ensures recovered { IfOk result (IsRecovered D.tells watch.old watch.new
        (seen_as (D.size disk.old) (D.stands disk.old) (D.faults disk.old))
        (seen_as (D.size disk.new) (D.stands disk.new) (D.faults disk.new)) lost) }
    ensures own { D.tells → IfOk result (λ source. OwnsLog (own_header shape peer) (log_in source)) }
    ensures headed { KeepsItsHeader D.tells (own_header shape peer) watch.old watch.new
        (seen_as (D.size disk.old) (D.stands disk.old) (D.faults disk.old))
        (seen_as (D.size disk.new) (D.stands disk.new) (D.faults disk.new)) }
    ensures keeps { KeepsDisk D.tells watch.old watch.new
        (seen_as (D.size disk.old) (D.stands disk.old) (D.faults disk.old))
        (seen_as (D.size disk.new) (D.stands disk.new) (D.faults disk.new)) }
    ensures only { IsOkUnless result NoMemory }
    ensures ticks { watch.old ≤ watch.new }
{
    if lost {
        return Ok(Source::Lost(watch.now()));
    }
    match PeerLog::from_view(view, disk, watch, shape, peer) {
        Ok(log) => Ok(Source::Kept(log)),
        Err(fault) => {
            if is_memory(fault) {
                return Err(TakeFault::NoMemory);
            }
            Ok(Source::Lost(watch.now()))
        }
    }
}
