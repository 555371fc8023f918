//! The logs of a shard's copies: recovered where they were found equal to the taken one, and else made so.
ghost use Rattle.std.specs.Prelude.{◌≡◌, ◌⊎◌, ◌+◌, ◌*◌, ◌<◌, ◌≤◌, ℕ, None, true, IfOk, IsOkUnless, OnOk, length, map};
ghost use Rattle.std.proofs.Common.{◌≢◌};
ghost use Rattle.hs_limits.specs.Shape.{IsShape, peer_of};
ghost use Rattle.hs_ports.specs.Fault.{HasRisen};
ghost use Rattle.hs_side.specs.Headers.{own_header};
ghost use Rattle.hs_taking.specs.declared.fault.TakeFault.TheVariants.{NoMemory};
ghost use Rattle.hs_taking.specs.declared.slot.Slot.TheVariants as kind;
ghost use Rattle.hs_taking.specs.Copies.{IsOf};
ghost use Rattle.hs_taking.specs.Disks.{seen_as, seen_at};
ghost use Rattle.hs_taking.specs.Evens.{log_of};
ghost use Rattle.hs_taking.specs.Headed.{KeepTheirHeaders, KeepsItsHeader, OwnTheirLogs, OwnsLog};
ghost use Rattle.hs_taking.specs.Pairs.{IsStill};
ghost use Rattle.hs_taking.specs.Shares.{KeepsDisk};
ghost use Rattle.hs_taking.specs.Slots.{AreMade, HasMoved, IsGood, IsGoodView, IsKeptOr, IsMade, IsMoved, IsSlot, IsSource, IsSourceOf, IsSourceRun, IsSourceStep, is_lost, slot_at};
ghost use Rattle.hs_taking.specs.Viewed.{IsViewOf};

use crate::TakeFault;
use crate::evening::even_at;
use crate::pair::{PairFault, is_memory};
use crate::slot::{Slot, Source};
use hs_limits::{Shape, peer_of};
use hs_peerlog::{PeerLog, PeerView};
use hs_ports::{Disk, Watch};
use std::mem::replace;

/// Recovers the logs of a shard's peers whose lists were found equal to the taken one, and makes each
/// other one equal, until the disk of the taken log fails.
pub(crate) fn level_copies<D: Disk>(
    source: &mut Source,
    slots: &mut Vec<Slot>,
    disks: &mut [D],
    watch: &mut Watch,
    shape: Shape,
    from: u8,
    shard: u8,
) -> Result<(), TakeFault>
    requires shape { IsShape shape }
    requires shard { shard < shape.shards }
    requires count { length disks.old ≡ shape.shards * shape.copies }
    requires slots { length slots.old.items ≡ shape.shards * shape.copies }
    requires from { IsOf shape shard from }
    requires source { IsSource D.tells
        (seen_at (map (λ disk. seen_as (D.size disk) (D.stands disk) (D.faults disk)) disks.old)
        from) source.old }
    requires aside { slot_at slots.old.items from ≡ kind.Aside }
    requires viewed { (peer : ℕ) → IsOf shape shard peer → peer ≢ from
        → IsSlot D.tells shape peer
        (seen_at (map (λ disk. seen_as (D.size disk) (D.stands disk) (D.faults disk)) disks.old)
        peer) (slot_at slots.old.items peer) }
    ensures made { OnOk result (AreMade D.tells shape shard from
        (peer_of shape shard 0 + shape.copies) watch.old watch.new
        (map (λ disk. seen_as (D.size disk) (D.stands disk) (D.faults disk)) disks.old)
        (map (λ disk. seen_as (D.size disk) (D.stands disk) (D.faults disk)) disks.new)
        slots.old.items slots.new.items source.old source.new) }
    ensures moved { (peer : ℕ) → IsOf shape shard peer → peer ≢ from
        → IsMoved D.tells watch.old watch.new
        (seen_at (map (λ disk. seen_as (D.size disk) (D.stands disk) (D.faults disk)) disks.old)
        peer)
        (seen_at (map (λ disk. seen_as (D.size disk) (D.stands disk) (D.faults disk)) disks.new)
        peer) source.old (IsSourceOf source.old
        (seen_at (map (λ disk. seen_as (D.size disk) (D.stands disk) (D.faults disk)) disks.old)
        from)) (slot_at slots.old.items peer) }
    ensures own { OwnTheirLogs D.tells shape (λ p. log_of (slot_at slots.old.items p))
        → OnOk result (OwnTheirLogs D.tells shape (λ p. log_of (slot_at slots.new.items p))) }
    ensures headed { KeepTheirHeaders D.tells shape watch.old watch.new
        (map (λ disk. seen_as (D.size disk) (D.stands disk) (D.faults disk)) disks.old)
        (map (λ disk. seen_as (D.size disk) (D.stands disk) (D.faults disk)) disks.new) }
    ensures still { IsStill D.tells
        (seen_at (map (λ disk. seen_as (D.size disk) (D.stands disk) (D.faults disk)) disks.old)
        from)
        (seen_at (map (λ disk. seen_as (D.size disk) (D.stands disk) (D.faults disk)) disks.new)
        from) }
    ensures outside { (peer : ℕ) → (IsOf shape shard peer → ⊥) → seen_at (map (λ disk. seen_as
        (D.size disk) (D.stands disk) (D.faults disk)) disks.new) peer
        ≡ seen_at (map (λ disk. seen_as (D.size disk) (D.stands disk) (D.faults disk)) disks.old)
        peer }
    ensures only { IsOkUnless result NoMemory }
    ensures count { length disks.new ≡ length disks.old }
    ensures slots { length slots.new.items ≡ length slots.old.items }
    ensures ticks { watch.old ≤ watch.new }
{
    for copy in 0..shape.copies {
        let peer = peer_of(shard, copy, shape);
        let place = usize::from(peer);
        match even_copy(
            source,
            &mut slots[place],
            disks,
            usize::from(from),
            place,
            watch,
            shape,
            peer,
        ) {
            Ok(()) => {}
            Err(fault) => return Err(fault),
        }
    }
    Ok(())
}

/// Recovers the log of a peer, or makes it equal to the taken one.
fn even_copy<D: Disk>(
    source: &mut Source,
    slot: &mut Slot,
    disks: &mut [D],
    from: usize,
    place: usize,
    watch: &mut Watch,
    shape: Shape,
    peer: u8,
) -> Result<(), TakeFault>
    requires from { from < length disks.old }
    requires place { place < length disks.old }
    requires apart { place ≡ from → slot.old ≡ kind.Aside }
    requires source { IsSource D.tells
        (seen_at (map (λ disk. seen_as (D.size disk) (D.stands disk) (D.faults disk)) disks.old)
        from) source.old }
    requires viewed { place ≢ from → IsSlot D.tells shape peer
        (seen_at (map (λ disk. seen_as (D.size disk) (D.stands disk) (D.faults disk)) disks.old)
        place) slot.old }
    ensures made { OnOk result (IsMade D.tells watch.old
        (seen_at (map (λ disk. seen_as (D.size disk) (D.stands disk) (D.faults disk)) disks.old)
        place)
        (seen_at (map (λ disk. seen_as (D.size disk) (D.stands disk) (D.faults disk)) disks.new)
        place) source.old source.new (IsSourceOf source.old
        (seen_at (map (λ disk. seen_as (D.size disk) (D.stands disk) (D.faults disk)) disks.old)
        from)) slot.old slot.new) }
    ensures moved { IsMoved D.tells watch.old watch.new
        (seen_at (map (λ disk. seen_as (D.size disk) (D.stands disk) (D.faults disk)) disks.old)
        place)
        (seen_at (map (λ disk. seen_as (D.size disk) (D.stands disk) (D.faults disk)) disks.new)
        place) source.old (IsSourceOf source.old
        (seen_at (map (λ disk. seen_as (D.size disk) (D.stands disk) (D.faults disk)) disks.old)
        from)) slot.old }
    ensures own { D.tells → OwnsLog (own_header shape peer) (log_of slot.old)
        → OnOk result (OwnsLog (own_header shape peer) (log_of slot.new)) }
    ensures headed { KeepsItsHeader D.tells (own_header shape peer) watch.old watch.new
        (seen_at (map (λ disk. seen_as (D.size disk) (D.stands disk) (D.faults disk)) disks.old)
        place)
        (seen_at (map (λ disk. seen_as (D.size disk) (D.stands disk) (D.faults disk)) disks.new)
        place) }
    ensures source { OnOk result (IsSourceStep D.tells watch.new
        (seen_at (map (λ disk. seen_as (D.size disk) (D.stands disk) (D.faults disk)) disks.old)
        from)
        (seen_at (map (λ disk. seen_as (D.size disk) (D.stands disk) (D.faults disk)) disks.new)
        from) source.old source.new) }
    ensures still { IsStill D.tells
        (seen_at (map (λ disk. seen_as (D.size disk) (D.stands disk) (D.faults disk)) disks.old)
        from)
        (seen_at (map (λ disk. seen_as (D.size disk) (D.stands disk) (D.faults disk)) disks.new)
        from) }
    ensures rest { (other : ℕ) → other ≢ from → other ≢ place
        → seen_at (map (λ disk. seen_as (D.size disk) (D.stands disk) (D.faults disk)) disks.new)
        other
        ≡ seen_at (map (λ disk. seen_as (D.size disk) (D.stands disk) (D.faults disk)) disks.old)
        other }
    ensures only { IsOkUnless result NoMemory }
    ensures count { length disks.new ≡ length disks.old }
    ensures ticks { watch.old ≤ watch.new }
{
    match replace(slot, Slot::Aside) {
        Slot::Aside => Ok(()),
        Slot::Kept(log) => {
            *slot = Slot::Kept(log);
            Ok(())
        }
        Slot::Equal(view) => match recover_copy(view, &mut disks[place], watch, shape, peer) {
            Ok(made) => {
                *slot = made;
                Ok(())
            }
            Err(fault) => Err(fault),
        },
        Slot::Viewed(view) => {
            match level_copy(source, view, disks, from, place, watch, shape, peer) {
                Ok(made) => {
                    *slot = made;
                    Ok(())
                }
                Err(fault) => Err(fault),
            }
        }
    }
}

/// The log of a view whose list was found equal, where its disk does not fail.
fn recover_copy<D: Disk>(
    view: PeerView,
    disk: &mut D,
    watch: &mut Watch,
    shape: Shape,
    peer: u8,
) -> Result<Slot, TakeFault>
    requires viewed { IsViewOf D.tells shape peer
        (seen_as (D.size disk.old) (D.stands disk.old) (D.faults disk.old)) view }
    ensures kept { IfOk result (IsKeptOr (IsGoodView D.tells watch.old
        (seen_as (D.size disk.old) (D.stands disk.old) (D.faults disk.old))
        (seen_as (D.size disk.new) (D.stands disk.new) (D.faults disk.new)))
        (D.tells → HasRisen (D.faults disk.old) (D.faults disk.new))) }
    ensures own { D.tells → IfOk result (λ slot. OwnsLog (own_header shape peer) (log_of slot)) }
    ensures headed { KeepsItsHeader D.tells (own_header shape peer) watch.old watch.new
        (seen_as (D.size disk.old) (D.stands disk.old) (D.faults disk.old))
        (seen_as (D.size disk.new) (D.stands disk.new) (D.faults disk.new)) }
    ensures keeps { KeepsDisk D.tells watch.old watch.new
        (seen_as (D.size disk.old) (D.stands disk.old) (D.faults disk.old))
        (seen_as (D.size disk.new) (D.stands disk.new) (D.faults disk.new)) }
    ensures only { IsOkUnless result NoMemory }
    ensures ticks { watch.old ≤ watch.new }
{
    match PeerLog::from_view(view, disk, watch, shape, peer) {
        Ok(log) => Ok(Slot::Kept(log)),
        Err(fault) => {
            if is_memory(fault) {
                return Err(TakeFault::NoMemory);
            }
            Ok(Slot::Aside)
        }
    }
}

/// The log of a view whose list differs, made equal to the taken one, where that is not lost.
fn level_copy<D: Disk>(
    source: &mut Source,
    view: PeerView,
    disks: &mut [D],
    from: usize,
    place: usize,
    watch: &mut Watch,
    shape: Shape,
    peer: u8,
) -> Result<Slot, TakeFault>
    requires from { from < length disks.old }
    requires place { place < length disks.old }
    requires apart { from ≢ place }
    requires source { IsSource D.tells
        (seen_at (map (λ disk. seen_as (D.size disk) (D.stands disk) (D.faults disk)) disks.old)
        from) source.old }
    requires viewed { IsViewOf D.tells shape peer
        (seen_at (map (λ disk. seen_as (D.size disk) (D.stands disk) (D.faults disk)) disks.old)
        place) view }
    ensures kept { IfOk result (IsKeptOr (IsGood D.tells watch.old
        (seen_at (map (λ disk. seen_as (D.size disk) (D.stands disk) (D.faults disk)) disks.old)
        place)
        (seen_at (map (λ disk. seen_as (D.size disk) (D.stands disk) (D.faults disk)) disks.new)
        place) (IsSourceOf source.old
        (seen_at (map (λ disk. seen_as (D.size disk) (D.stands disk) (D.faults disk)) disks.old)
        from))) ((is_lost source.new ≡ true) ⊎ (D.tells → HasRisen
        (seen_at (map (λ disk. seen_as (D.size disk) (D.stands disk) (D.faults disk)) disks.old)
        place).faults
        (seen_at (map (λ disk. seen_as (D.size disk) (D.stands disk) (D.faults disk)) disks.new)
        place).faults))) }
    ensures moved { HasMoved D.tells watch.old watch.new
        (seen_at (map (λ disk. seen_as (D.size disk) (D.stands disk) (D.faults disk)) disks.old)
        place)
        (seen_at (map (λ disk. seen_as (D.size disk) (D.stands disk) (D.faults disk)) disks.new)
        place) (IsSourceOf source.old
        (seen_at (map (λ disk. seen_as (D.size disk) (D.stands disk) (D.faults disk)) disks.old)
        from)) }
    ensures own { D.tells → IfOk result (λ slot. OwnsLog (own_header shape peer) (log_of slot)) }
    ensures headed { KeepsItsHeader D.tells (own_header shape peer) watch.old watch.new
        (seen_at (map (λ disk. seen_as (D.size disk) (D.stands disk) (D.faults disk)) disks.old)
        place)
        (seen_at (map (λ disk. seen_as (D.size disk) (D.stands disk) (D.faults disk)) disks.new)
        place) }
    ensures idle { is_lost source.old ≡ true → disks.new ≡ disks.old }
    ensures none { is_lost source.old ≡ true → IfOk result (λ slot. slot ≡ kind.Aside) }
    ensures source { OnOk result (IsSourceStep D.tells watch.new
        (seen_at (map (λ disk. seen_as (D.size disk) (D.stands disk) (D.faults disk)) disks.old)
        from)
        (seen_at (map (λ disk. seen_as (D.size disk) (D.stands disk) (D.faults disk)) disks.new)
        from) source.old source.new) }
    ensures still { IsStill D.tells
        (seen_at (map (λ disk. seen_as (D.size disk) (D.stands disk) (D.faults disk)) disks.old)
        from)
        (seen_at (map (λ disk. seen_as (D.size disk) (D.stands disk) (D.faults disk)) disks.new)
        from) }
    ensures rest { (other : ℕ) → other ≢ from → other ≢ place
        → seen_at (map (λ disk. seen_as (D.size disk) (D.stands disk) (D.faults disk)) disks.new)
        other
        ≡ seen_at (map (λ disk. seen_as (D.size disk) (D.stands disk) (D.faults disk)) disks.old)
        other }
    ensures only { IsOkUnless result NoMemory }
    ensures count { length disks.new ≡ length disks.old }
    ensures ticks { watch.old ≤ watch.new }
{
    let made = match source {
        Source::Lost(_) => return Ok(Slot::Aside),
        Source::Kept(log) => even_at(log, view, disks, from, place, watch, shape, peer),
    };
    match made {
        Ok(copy) => Ok(Slot::Kept(copy)),
        Err(PairFault::Taken) => {
            *source = Source::Lost(watch.now());
            Ok(Slot::Aside)
        }
        Err(PairFault::Other) => Ok(Slot::Aside),
        Err(PairFault::NoMemory) => Err(TakeFault::NoMemory),
    }
}
