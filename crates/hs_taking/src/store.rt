//! The logs that a store opens with.
ghost use Rattle.std.specs.Prelude.{◌≡◌, ◌*◌, ◌<◌, ◌≤◌, ℕ, Some, length, map, IfErr, IfOk, OnOk};
ghost use Rattle.hs_limits.specs.Shape.{IsShape};
ghost use Rattle.hs_peerlog.specs.declared.fault.LogFault.TheVariants as log;
ghost use Rattle.hs_peerlog.specs.Opening.{refusal_in};
ghost use Rattle.hs_ports.specs.Fault.{HasRisen};
ghost use Rattle.hs_side.specs.declared.header.Header.{Header};
ghost use Rattle.hs_side.specs.Headers.{own_header};
ghost use Rattle.hs_taking.specs.Copies.{HasEvened};
ghost use Rattle.hs_taking.specs.Disks.{AreReady, log_at, seen_as, seen_at};
ghost use Rattle.hs_taking.specs.Headed.{KeepsItsHeader, OwnTheirLogs};
ghost use Rattle.hs_taking.specs.Opening.{LeavesShard};
ghost use Rattle.hs_taking.specs.Shares.{KeepsDisk};
ghost use Rattle.hs_taking.specs.Spared.{SparesDisks};
ghost use Rattle.hs_taking.specs.Store.{HasRead};
ghost use Rattle.hs_taking.specs.Viewed.{IsOnlyRead, IsOther};

use crate::TakeFault;
use crate::shares::{Taking, take_all};
use crate::viewing::view_all;
use hs_block::Addresser;
use hs_limits::{Limits, Shape};
use hs_ports::{Disk, Watch};
use std::alloc::Global;

/// Reads every disk of a store before it writes any, and takes for each shard the log of greatest
/// rank: applies it whole, and makes each other list of the shard equal to it. A disk of another
/// store, or of another peer, ends it before anything is written: the first one whose count stands. A
/// disk that fails, or is no log, is out of use. Where the disk of a taken log fails, so is each one
/// of its shard that was not yet found or made equal.
pub fn read_store<A: Addresser, D: Disk>(
    alloc: Global,
    naming: &A,
    disks: &mut [D],
    watch: &mut Watch,
    shape: Shape,
    limits: Limits,
) -> Result<Taking, TakeFault>
    requires shape { IsShape shape }
    requires count { length disks.old ≡ shape.shards * shape.copies }
    // What each shard opens with: the log of greatest rank, which every good peer of it has.
    ensures evened { IfOk result (λ taking. HasEvened D.tells
        (record { name = A.name naming.now; limits = limits; shape = shape })
        (record {
          before = watch.old;
          now = watch.new;
          old = map (λ disk. seen_as (D.size disk) (D.stands disk) (D.faults disk)) disks.old;
          new = map (λ disk. seen_as (D.size disk) (D.stands disk) (D.faults disk)) disks.new;
        }) (record { logs = taking.logs.items; shares = taking.shares.items })) }
    ensures read { shape.copies ≡ 1 → IfOk result (λ taking. HasRead D.tells
        (record { name = A.name naming.now; limits = limits; shape = shape })
        (record {
          before = watch.old;
          now = watch.new;
          old = map (λ disk. seen_as (D.size disk) (D.stands disk) (D.faults disk)) disks.old;
          new = map (λ disk. seen_as (D.size disk) (D.stands disk) (D.faults disk)) disks.new;
        }) (record { logs = taking.logs.items; shares = taking.shares.items })) }

    // A disk of another store: which one, and that there is none where the logs are taken.
    ensures other { IfErr result (IsOther D.tells shape
        (map (λ disk. seen_as (D.size disk) (D.stands disk) (D.faults disk)) disks.old)
        (map (λ disk. seen_as (D.size disk) (D.stands disk) (D.faults disk)) disks.new)) }
    ensures unwritten { IfErr result (λ fault. (at : ℕ) (found : Header)
        → fault ≡ TakeFault.WrongShape at found → (peer : ℕ) → peer < length disks.old
        → IsOnlyRead D.tells watch.old watch.new
        (seen_at (map (λ disk. seen_as (D.size disk) (D.stands disk) (D.faults disk)) disks.old)
        peer)
        (seen_at (map (λ disk. seen_as (D.size disk) (D.stands disk) (D.faults disk)) disks.new)
        peer)) }
    // Where one did not fail none was written, whatever is answered.
    ensures spares { SparesDisks D.tells shape (record {
      before = watch.old;
      now = watch.new;
      old = map (λ disk. seen_as (D.size disk) (D.stands disk) (D.faults disk)) disks.old;
      new = map (λ disk. seen_as (D.size disk) (D.stands disk) (D.faults disk)) disks.new;
    }) }
    ensures own { D.tells → OnOk result ((peer : ℕ) (found : Header) → peer < length disks.old
        → refusal_in shape peer (seen_at (map (λ disk. seen_as (D.size disk) (D.stands disk)
        (D.faults disk)) disks.old) peer).stands.seen ≡ Some (log.WrongShape found)
        → HasRisen (seen_at (map (λ disk. seen_as (D.size disk) (D.stands disk) (D.faults disk))
        disks.old) peer).faults
        (seen_at (map (λ disk. seen_as (D.size disk) (D.stands disk) (D.faults disk)) disks.new)
        peer).faults) }

    ensures ready { IfOk result (λ taking. AreReady D.tells taking.logs.items
        (map (λ disk. seen_as (D.size disk) (D.stands disk) (D.faults disk)) disks.new)) }
    ensures shares { IfOk result (λ taking. length taking.shares.items ≡ shape.shards) }
    ensures logs { IfOk result (λ taking. length taking.logs.items
        ≡ shape.shards * shape.copies) }
    ensures counted { (peer : ℕ) → peer < length disks.old
        → (seen_at (map (λ disk. seen_as (D.size disk) (D.stands disk) (D.faults disk)) disks.old)
        peer).faults
        ≤ (seen_at (map (λ disk. seen_as (D.size disk) (D.stands disk) (D.faults disk)) disks.new)
        peer).faults }
    // A log that is in use has the header of its peer. Whatever is answered, a stop leaves no other on
    // a disk at any moment, where it did not before.
    ensures heads { IfOk result (λ taking. OwnTheirLogs D.tells shape (log_at taking.logs.items)) }
    ensures headed { (peer : ℕ) → peer < length disks.old
        → KeepsItsHeader D.tells (own_header shape peer) watch.old watch.new
        (seen_at (map (λ disk. seen_as (D.size disk) (D.stands disk) (D.faults disk)) disks.old)
        peer)
        (seen_at (map (λ disk. seen_as (D.size disk) (D.stands disk) (D.faults disk)) disks.new)
        peer) }
    // Whatever it answers, what a stop leaves of each shard's disks meanwhile.
    ensures any_moment { (shard : ℕ) → shard < shape.shards → LeavesShard D.tells shape (record {
      before = watch.old;
      now = watch.new;
      old = map (λ disk. seen_as (D.size disk) (D.stands disk) (D.faults disk)) disks.old;
      new = map (λ disk. seen_as (D.size disk) (D.stands disk) (D.faults disk)) disks.new;
    }) shard }
    // With one copy the list of each disk is as it was, at each moment, and its past stays.
    ensures keeps { shape.copies ≡ 1 → (peer : ℕ) → peer < length disks.old → KeepsDisk D.tells watch.old watch.new
        (seen_at (map (λ disk. seen_as (D.size disk) (D.stands disk) (D.faults disk)) disks.old)
        peer)
        (seen_at (map (λ disk. seen_as (D.size disk) (D.stands disk) (D.faults disk)) disks.new)
        peer) }
    ensures count { length disks.new ≡ length disks.old }
    ensures ticks { watch.old ≤ watch.new }
{
    let views = match view_all(alloc, disks, watch, shape) {
        Ok(views) => views,
        Err(fault) => return Err(fault),
    };
    take_all(alloc, naming, views, disks, watch, shape, limits)
}
