//! Taking the logs of all shards.
ghost use Rattle.std.specs.Prelude.{◌≡◌, ◌*◌, ◌<◌, ◌≤◌, ℕ, None, Some, length, map, slice_index_or, IfOk, IfSome, IsOkUnless};
ghost use Rattle.hs_limits.specs.Shape.{IsShape};
ghost use Rattle.hs_shard.specs.Facts.{empty_catalogue};
ghost use Rattle.hs_taking.specs.declared.fault.TakeFault.TheVariants.{NoMemory};
ghost use Rattle.hs_taking.specs.Disks.{AreReady, log_at, seen_as, seen_at};
ghost use Rattle.hs_taking.specs.Evens.{HaveMoved, TakesAll, chosen_peer, log_of, slot_of};
ghost use Rattle.hs_taking.specs.Headed.{KeepTheirHeaders, OwnTheirLogs};
ghost use Rattle.hs_taking.specs.Shares.{KeepsDisk};
ghost use Rattle.hs_taking.specs.Viewed.{IsViewOf};

use crate::TakeFault;
use crate::choosing::{ranks_of, taken_peer};
use crate::slot::Slot;
use crate::taking::take_shard;
use hs_block::Addresser;
use hs_entry::Rank;
use hs_limits::{Limits, Shape};
use hs_peerlog::{PeerLog, PeerView};
use hs_ports::{Disk, Watch};
use hs_shard::Catalogue;
use std::alloc::{AllocError, Global};

/// What a shard opens with: the catalogue and the rank of its list, which are those of the empty list
/// where no peer of it has a log.
#[derive(Drop)]
pub struct Share {
    pub shard: u8,
    /// Whose log was taken.
    pub peer: u8,
    pub catalogue: Catalogue,
    pub rank: Rank,
    /// The number of the last entry of the taken log, where there was one.
    pub took: Option<u64>,
    /// When that log was lost, where its disk failed before it was recovered.
    pub lost: Option<u64>,
}

/// The logs of all peers, where they are in use, and what each shard opens with.
#[derive(Drop)]
pub struct Taking {
    pub logs: Vec<Option<PeerLog>>,
    pub shares: Vec<Share>,
}

/// Takes the log of each shard: of the views of its peers that of greatest rank. Each other list of
/// the shard is found or made equal to it.
pub(crate) fn take_all<A: Addresser, D: Disk>(
    alloc: Global,
    naming: &A,
    views: Vec<Option<PeerView>>,
    disks: &mut [D],
    watch: &mut Watch,
    shape: Shape,
    limits: Limits,
) -> Result<Taking, TakeFault>
    requires shape { IsShape shape }
    requires count { length disks.old ≡ shape.shards * shape.copies }
    requires views { length views.items ≡ shape.shards * shape.copies }
    requires viewed { (peer : ℕ) → peer < shape.shards * shape.copies
        → IfSome (slice_index_or views.items peer None) (IsViewOf D.tells shape peer
        (seen_at (map (λ disk. seen_as (D.size disk) (D.stands disk) (D.faults disk)) disks.old)
        peer)) }
    ensures takes { IfOk result (λ taking. TakesAll D.tells
        (record { name = A.name naming.now; limits = limits; shape = shape }) watch.old watch.new
        (map (λ disk. seen_as (D.size disk) (D.stands disk) (D.faults disk)) disks.old)
        (map (λ disk. seen_as (D.size disk) (D.stands disk) (D.faults disk)) disks.new)
        views.items (record { logs = taking.logs.items; shares = taking.shares.items })) }
    ensures shares { IfOk result (λ taking. length taking.shares.items ≡ shape.shards) }
    ensures logs { IfOk result (λ taking. length taking.logs.items
        ≡ shape.shards * shape.copies) }
    ensures ready { IfOk result (λ taking. AreReady D.tells taking.logs.items
        (map (λ disk. seen_as (D.size disk) (D.stands disk) (D.faults disk)) disks.new)) }
    ensures own { IfOk result (λ taking. OwnTheirLogs D.tells shape (log_at taking.logs.items)) }
    ensures headed { KeepTheirHeaders D.tells shape watch.old watch.new
        (map (λ disk. seen_as (D.size disk) (D.stands disk) (D.faults disk)) disks.old)
        (map (λ disk. seen_as (D.size disk) (D.stands disk) (D.faults disk)) disks.new) }
    ensures counted { (peer : ℕ) → peer < length disks.old
        → (seen_at (map (λ disk. seen_as (D.size disk) (D.stands disk) (D.faults disk)) disks.old)
        peer).faults
        ≤ (seen_at (map (λ disk. seen_as (D.size disk) (D.stands disk) (D.faults disk)) disks.new)
        peer).faults }
    ensures keeps { shape.copies ≡ 1 → (peer : ℕ) → peer < length disks.old → KeepsDisk D.tells watch.old watch.new
        (seen_at (map (λ disk. seen_as (D.size disk) (D.stands disk) (D.faults disk)) disks.old)
        peer)
        (seen_at (map (λ disk. seen_as (D.size disk) (D.stands disk) (D.faults disk)) disks.new)
        peer) }
    ensures moved { (shard : ℕ) → shard < shape.shards → HaveMoved D.tells shape shard
        (chosen_peer shape views.items shard) watch.old watch.new
        (map (λ disk. seen_as (D.size disk) (D.stands disk) (D.faults disk)) disks.old)
        (map (λ disk. seen_as (D.size disk) (D.stands disk) (D.faults disk)) disks.new)
        (map slot_of views.items) }
    ensures only { IsOkUnless result NoMemory }
    ensures count { length disks.new ≡ length disks.old }
    ensures ticks { watch.old ≤ watch.new }
{
    let ranks = ranks_of(alloc, views.as_slice())?;
    let mut slots = slots_of(alloc, views)?;
    let mut shares = Vec::new(alloc);
    for shard in 0..shape.shards {
        let peer = taken_peer(ranks.as_slice(), shape, shard);
        let share = take_shard(
            alloc, naming, &mut slots, disks, watch, shape, limits, peer, shard,
        );
        let share = match share {
            Ok(share) => share,
            Err(fault) => return Err(fault),
        };
        if shares.push(share).is_err() {
            return Err(TakeFault::NoMemory);
        }
    }
    let logs = logs_of(alloc, slots)?;
    Ok(Taking { logs, shares })
}

/// What is kept of the disks of all peers, from their views.
fn slots_of(alloc: Global, views: Vec<Option<PeerView>>) -> Result<Vec<Slot>, AllocError>
    ensures { IfOk result (λ slots. slots.items ≡ map slot_of views.items) }
{
    let mut slots = Vec::new(alloc);
    for view in views {
        slots.push(slot_of(view))?;
    }
    Ok(slots)
}

/// The logs of all peers, where they are kept.
fn logs_of(alloc: Global, slots: Vec<Slot>) -> Result<Vec<Option<PeerLog>>, AllocError>
    ensures { IfOk result (λ logs. logs.items ≡ map log_of slots.items) }
{
    let mut logs = Vec::new(alloc);
    for slot in slots {
        logs.push(log_of(slot))?;
    }
    Ok(logs)
}

/// What is kept of a disk that was viewed, or was not.
fn slot_of(view: Option<PeerView>) -> Slot
    ensures { result ≡ slot_of view }
{
    match view {
        Some(view) => Slot::Viewed(view),
        None => Slot::Aside,
    }
}

/// The log of a slot, where one is kept.
fn log_of(slot: Slot) -> Option<PeerLog>
    ensures { result ≡ log_of slot }
{
    match slot {
        Slot::Kept(log) => Some(log),
        Slot::Aside | Slot::Viewed(_) | Slot::Equal(_) => None,
    }
}

/// What a shard opens with where no peer of it has a log.
pub(crate) fn empty_share(alloc: Global, shape: Shape, limits: Limits, peer: u8, shard: u8) -> Share
    requires shape { IsShape shape }
    requires shard { shard < shape.shards }
    ensures { result ≡ record {
      shard = shard;
      peer = peer;
      catalogue = empty_catalogue shape shard;
      rank = record { view = 0; number = 0 };
      took = None;
      lost = None;
    } }
{
    Share {
        shard,
        peer,
        catalogue: Catalogue::new(alloc, shape, shard, limits),
        rank: Rank { view: 0, number: 0 },
        took: None,
        lost: None,
    }
}

/// What a shard opens with where its taken log was read, and no log of it is kept.
pub(crate) fn lost_share(
    alloc: Global,
    shape: Shape,
    limits: Limits,
    peer: u8,
    shard: u8,
    took: u64,
    lost: Option<u64>,
) -> Share
    requires shape { IsShape shape }
    requires shard { shard < shape.shards }
    ensures { result ≡ record {
      shard = shard;
      peer = peer;
      catalogue = empty_catalogue shape shard;
      rank = record { view = 0; number = 0 };
      took = Some took;
      lost = lost;
    } }
{
    Share {
        shard,
        peer,
        catalogue: Catalogue::new(alloc, shape, shard, limits),
        rank: Rank { view: 0, number: 0 },
        took: Some(took),
        lost,
    }
}
