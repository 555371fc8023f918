//! The copies of a shard: found equal to the taken log, or made so.
ghost use Rattle.std.specs.Prelude.{◌≡◌, ◌+◌, ◌*◌, ◌<◌, ◌≤◌, ℕ, None, true, IfOk, IsOkUnless, OnOk, length, map};
ghost use Rattle.std.proofs.Common.{◌≢◌};
ghost use Rattle.hs_limits.specs.Shape.{IsShape, peer_of};
ghost use Rattle.hs_peerlog.specs.Views.{IsAsViewed, Viewing};
ghost use Rattle.hs_taking.specs.declared.fault.TakeFault.TheVariants.{NoMemory};
ghost use Rattle.hs_taking.specs.declared.slot.Slot.TheVariants as kind;
ghost use Rattle.hs_taking.specs.Copies.{IsOf};
ghost use Rattle.hs_taking.specs.Disks.{seen_as, seen_at};
ghost use Rattle.hs_taking.specs.Pairs.{IsStill};
ghost use Rattle.hs_taking.specs.Slots.{AreSorted, HasTried, IsSlot, IsSorted, slot_at};

use crate::TakeFault;
use crate::comparing::compare_at;
use crate::pair::PairFault;
use crate::slot::Slot;
use hs_limits::{Shape, peer_of};
use hs_peerlog::PeerView;
use hs_ports::Disk;
use std::mem::replace;

/// Compares the views of a shard's peers with that of the taken log, until its disk fails: whether it
/// did. Nothing is written.
pub(crate) fn compare_copies<D: Disk>(
    view: &PeerView,
    slots: &mut Vec<Slot>,
    disks: &mut [D],
    shape: Shape,
    from: u8,
    shard: u8,
) -> Result<bool, TakeFault>
    requires shape { IsShape shape }
    requires shard { shard < shape.shards }
    requires count { length disks.old ≡ shape.shards * shape.copies }
    requires slots { length slots.old.items ≡ shape.shards * shape.copies }
    requires from { IsOf shape shard from }
    requires taken { IsAsViewed D.tells view.now
        ((seen_at (map (λ disk. seen_as (D.size disk) (D.stands disk) (D.faults disk)) disks.old)
        from).size view.now.log.side)
        (seen_at (map (λ disk. seen_as (D.size disk) (D.stands disk) (D.faults disk)) disks.old)
        from).stands }
    requires aside { slot_at slots.old.items from ≡ kind.Aside }
    requires viewed { (peer : ℕ) → IsOf shape shard peer → IsSlot D.tells shape peer
        (seen_at (map (λ disk. seen_as (D.size disk) (D.stands disk) (D.faults disk)) disks.old)
        peer) (slot_at slots.old.items peer) }
    ensures sorted { IfOk result (AreSorted D.tells shape shard from
        (peer_of shape shard 0 + shape.copies)
        (map (λ disk. seen_as (D.size disk) (D.stands disk) (D.faults disk)) disks.old)
        (map (λ disk. seen_as (D.size disk) (D.stands disk) (D.faults disk)) disks.new)
        slots.old.items slots.new.items) }
    ensures still { (peer : ℕ) → IsStill D.tells
        (seen_at (map (λ disk. seen_as (D.size disk) (D.stands disk) (D.faults disk)) disks.old)
        peer)
        (seen_at (map (λ disk. seen_as (D.size disk) (D.stands disk) (D.faults disk)) disks.new)
        peer) }
    ensures outside { (peer : ℕ) → (IsOf shape shard peer → ⊥) → seen_at (map (λ disk. seen_as
        (D.size disk) (D.stands disk) (D.faults disk)) disks.new) peer
        ≡ seen_at (map (λ disk. seen_as (D.size disk) (D.stands disk) (D.faults disk)) disks.old)
        peer }
    ensures only { IsOkUnless result NoMemory }
    ensures count { length disks.new ≡ length disks.old }
    ensures slots { length slots.new.items ≡ length slots.old.items }
{
    let mut lost = false;
    for copy in 0..shape.copies {
        let place = usize::from(peer_of(shard, copy, shape));
        match compare_copy(
            view,
            &mut slots[place],
            &mut lost,
            disks,
            usize::from(from),
            place,
        ) {
            Ok(()) => {}
            Err(fault) => return Err(fault),
        }
    }
    Ok(lost)
}

/// Compares the view of a peer with that of the taken log, where that was not lost.
fn compare_copy<D: Disk>(
    view: &PeerView,
    slot: &mut Slot,
    lost: &mut bool,
    disks: &mut [D],
    from: usize,
    place: usize,
) -> Result<(), TakeFault>
    requires from { from < length disks.old }
    requires place { place < length disks.old }
    requires apart { place ≡ from → slot.old ≡ kind.Aside }
    requires taken { IsAsViewed D.tells view.now
        ((seen_at (map (λ disk. seen_as (D.size disk) (D.stands disk) (D.faults disk)) disks.old)
        from).size view.now.log.side)
        (seen_at (map (λ disk. seen_as (D.size disk) (D.stands disk) (D.faults disk)) disks.old)
        from).stands }
    requires viewed { (other : Viewing) → slot.old ≡ kind.Viewed other → IsAsViewed D.tells other
        ((seen_at (map (λ disk. seen_as (D.size disk) (D.stands disk) (D.faults disk)) disks.old)
        place).size other.log.side)
        (seen_at (map (λ disk. seen_as (D.size disk) (D.stands disk) (D.faults disk)) disks.old)
        place).stands }
    ensures sorted { OnOk result (IsSorted D.tells
        (seen_at (map (λ disk. seen_as (D.size disk) (D.stands disk) (D.faults disk)) disks.old)
        from)
        (seen_at (map (λ disk. seen_as (D.size disk) (D.stands disk) (D.faults disk)) disks.old)
        place)
        (seen_at (map (λ disk. seen_as (D.size disk) (D.stands disk) (D.faults disk)) disks.new)
        place) lost.new slot.old slot.new) }
    ensures tried { OnOk result (HasTried D.tells
        (seen_at (map (λ disk. seen_as (D.size disk) (D.stands disk) (D.faults disk)) disks.old)
        from)
        (seen_at (map (λ disk. seen_as (D.size disk) (D.stands disk) (D.faults disk)) disks.new)
        from) lost.old lost.new) }
    ensures source { IsStill D.tells
        (seen_at (map (λ disk. seen_as (D.size disk) (D.stands disk) (D.faults disk)) disks.old)
        from)
        (seen_at (map (λ disk. seen_as (D.size disk) (D.stands disk) (D.faults disk)) disks.new)
        from) }
    ensures disk { IsStill D.tells
        (seen_at (map (λ disk. seen_as (D.size disk) (D.stands disk) (D.faults disk)) disks.old)
        place)
        (seen_at (map (λ disk. seen_as (D.size disk) (D.stands disk) (D.faults disk)) disks.new)
        place) }
    ensures rest { (peer : ℕ) → peer ≢ from → peer ≢ place
        → seen_at (map (λ disk. seen_as (D.size disk) (D.stands disk) (D.faults disk)) disks.new)
        peer
        ≡ seen_at (map (λ disk. seen_as (D.size disk) (D.stands disk) (D.faults disk)) disks.old)
        peer }
    ensures only { IsOkUnless result NoMemory }
    ensures count { length disks.new ≡ length disks.old }
{
    let other = match replace(slot, Slot::Aside) {
        Slot::Viewed(other) => other,
        Slot::Aside => return Ok(()),
        Slot::Equal(other) => {
            *slot = Slot::Equal(other);
            return Ok(());
        }
        Slot::Kept(log) => {
            *slot = Slot::Kept(log);
            return Ok(());
        }
    };
    if *lost {
        return Ok(());
    }
    match compare_at(view, &other, disks, from, place) {
        Ok(true) => *slot = Slot::Equal(other),
        Ok(false) => *slot = Slot::Viewed(other),
        Err(PairFault::Taken) => *lost = true,
        Err(PairFault::Other) => {}
        Err(PairFault::NoMemory) => return Err(TakeFault::NoMemory),
    }
    Ok(())
}
