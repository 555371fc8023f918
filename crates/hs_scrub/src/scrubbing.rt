//! Whether the copies of each shard agree.
ghost use Rattle.std.specs.Prelude.{◌≡◌, ◌*◌, ◌<◌, ◌≤◌, ℕ, length, map, IfErr, IfOk};
ghost use Rattle.hs_limits.specs.Shape.{IsShape};
ghost use Rattle.hs_scrub.specs.declared.fault.ScrubFault.TheVariants.{NoMemory, WrongShape};
ghost use Rattle.hs_scrub.specs.Scrubbed.{HasScrubbed, IsOther};
ghost use Rattle.hs_scrub.specs.Steps.{AreCalled, AreDone, AreViews};
ghost use Rattle.hs_side.specs.declared.header.Header.{Header};
ghost use Rattle.hs_taking.specs.Disks.{seen_as, seen_at};
ghost use Rattle.hs_taking.specs.Viewed.{IsOnlyRead};

use crate::look::{Looks, look_at_all};
use crate::shard::mark_shard;
use crate::text::put_text;
use crate::{PeerMark, ScrubFault};
use hs_limits::{Shape, peer_of};
use hs_peerlog::PeerView;
use hs_ports::{Disk, Watch};
use std::alloc::Global;

/// Takes the log of each shard, compares the list of each other peer with it, entry by entry, and puts
/// a line for each peer at the end of `out`, and a last one. Nothing is written to a disk. A disk of
/// another store, or of another peer, ends it before a line is put: the first one whose count stands.
pub fn scrub<D: Disk>(
    alloc: Global,
    disks: &mut [D],
    watch: &mut Watch,
    shape: Shape,
    out: &mut Vec<u8>,
) -> Result<Vec<PeerMark>, ScrubFault>
    requires shape { IsShape shape }
    requires count { length disks.old ≡ shape.shards * shape.copies }
    ensures scrubbed { IfOk result (λ marks. HasScrubbed D.tells shape
        (map (λ disk. seen_as (D.size disk) (D.stands disk) (D.faults disk)) disks.old)
        (map (λ disk. seen_as (D.size disk) (D.stands disk) (D.faults disk)) disks.new)
        marks.items out.old.items out.new.items) }

    // A disk of another store: which one.
    ensures other { IfErr result (IsOther D.tells shape
        (map (λ disk. seen_as (D.size disk) (D.stands disk) (D.faults disk)) disks.old)
        (map (λ disk. seen_as (D.size disk) (D.stands disk) (D.faults disk)) disks.new)) }
    ensures silent { IfErr result (λ fault. (peer : ℕ) (found : Header)
        → fault ≡ WrongShape peer found → out.new.items ≡ out.old.items) }

    // No disk is written.
    ensures read { (peer : ℕ) → peer < length disks.old
        → IsOnlyRead D.tells watch.old watch.new
        (seen_at (map (λ disk. seen_as (D.size disk) (D.stands disk) (D.faults disk)) disks.old)
        peer)
        (seen_at (map (λ disk. seen_as (D.size disk) (D.stands disk) (D.faults disk)) disks.new)
        peer) }
    ensures count { length disks.new ≡ length disks.old }
    ensures ticks { watch.old ≤ watch.new }
{
    let Looks {
        mut views,
        mut marks,
    } = match look_at_all(alloc, disks, watch, shape) {
        Ok(looks) => looks,
        Err(fault) => return Err(fault),
    };
    let lengths = match mark_all(
        alloc,
        views.as_mut_slice(),
        marks.as_mut_slice(),
        disks,
        shape,
    ) {
        Ok(lengths) => lengths,
        Err(fault) => return Err(fault),
    };
    match put_text(shape.copies, lengths.as_slice(), marks.as_slice(), out) {
        Ok(()) => Ok(marks),
        Err(fault) => Err(fault),
    }
}

/// Marks the peers of each shard by the log that is taken of it: by shard the number of its last entry,
/// 0 where there is none.
fn mark_all<D: Disk>(
    alloc: Global,
    views: &mut [Option<PeerView>],
    marks: &mut [PeerMark],
    disks: &mut [D],
    shape: Shape,
) -> Result<Vec<u64>, ScrubFault>
    requires shape { IsShape shape }
    requires total { length disks.old ≡ shape.shards * shape.copies }
    requires views { length views.old ≡ length disks.old }
    requires marks { length marks.old ≡ length disks.old }
    requires stands { AreViews D.tells views.old
        (map (λ disk. seen_as (D.size disk) (D.stands disk) (D.faults disk)) disks.old) }
    ensures done { IfOk result (λ lengths. AreDone D.tells shape shape.shards lengths.items
        (record {
          disks = map (λ disk. seen_as (D.size disk) (D.stands disk) (D.faults disk)) disks.old;
          views = views.old;
          marks = marks.old;
        }) (record {
          disks = map (λ disk. seen_as (D.size disk) (D.stands disk) (D.faults disk)) disks.new;
          views = views.new;
          marks = marks.new;
        })) }
    ensures lengths { IfOk result (λ lengths. length lengths.items ≡ shape.shards) }
    ensures called { AreCalled D.tells
        (map (λ disk. seen_as (D.size disk) (D.stands disk) (D.faults disk)) disks.old)
        (map (λ disk. seen_as (D.size disk) (D.stands disk) (D.faults disk)) disks.new) }
    ensures memory { IfErr result (λ fault. fault ≡ NoMemory) }
    ensures views { length views.new ≡ length views.old }
    ensures marks { length marks.new ≡ length marks.old }
    ensures count { length disks.new ≡ length disks.old }
{
    let mut lengths = Vec::new(alloc);
    for shard in 0..shape.shards {
        let from = usize::from(peer_of(shard, 0, shape));
        let to = from + usize::from(shape.copies);
        let length = match mark_shard(alloc, views, marks, disks, from, to) {
            Ok(length) => length,
            Err(fault) => return Err(fault),
        };
        if lengths.push(length).is_err() {
            return Err(ScrubFault::NoMemory);
        }
    }
    Ok(lengths)
}
