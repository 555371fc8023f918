//! The command `scrub`.
ghost use Rattle.std.specs.Prelude.{◌≡◌, ◌*◌, ◌<◌, ℕ, IfSome, List, Option, length, map};
ghost use Rattle.hs_checks.specs.Compared.{IsCompared, scrub_status};
ghost use Rattle.hs_limits.specs.Shape.{IsShape};
ghost use Rattle.hs_ports.specs.Objects.{handed};
ghost use Rattle.hs_promise.specs.Run.{ran_of};
ghost use Rattle.hs_scrub.specs.Marks.{is_read};

use hs_limits::Shape;
use hs_ports::{Disk, Sink, Watch};
use hs_promise::{Outcome, Status};
use hs_run::{closed, put_all};
use hs_scrub::{PeerMark, ScrubFault, copy_from, scrub};
use std::alloc::Global;

/// Puts into the sink whether the copies of each shard agree. It reads no source. Without `from` it
/// writes no disk; with it, the list of that peer is then copied over the others of its shard, where it
/// has one, and a line put for each that has not got it.
pub fn run_scrub<K: Sink, D: Disk>(
    alloc: Global,
    shape: Shape,
    from: Option<u8>,
    sink: &mut K,
    disks: &mut [D],
    watch: &mut Watch,
) -> Outcome
    requires shape { IsShape shape }
    requires count { length disks.old ≡ shape.shards * shape.copies }
    requires from { IfSome from (λ peer. peer < shape.shards * shape.copies) }
    ensures begun { result.status ≡ Status.Usage → ⊥ }
    ensures compared { (source : Option (List ℕ) × ℕ) → IsCompared D.tells shape from
        (ran_of result
        (handed watch.old (map (λ disk. (D.stands disk, D.faults disk)) disks.old)
        (K.got sink.old, K.faults sink.old) source)
        (handed watch.new (map (λ disk. (D.stands disk, D.faults disk)) disks.new)
        (K.got sink.new, K.faults sink.new) source)) }
{
    let mut text = Vec::new(alloc);
    let marks = match scrub(alloc, disks, watch, shape, &mut text) {
        Ok(marks) => marks,
        Err(fault) => return closed(alloc, status_of(fault), 0),
    };
    if put_all(sink, watch, text.as_slice()).is_err() {
        return closed(alloc, Status::WriteFault, 0);
    }
    let Some(peer) = from else {
        return closed(alloc, Status::Done, 0);
    };
    if !has_list(marks[usize::from(peer)]) {
        return closed(alloc, Status::NoSource { peer }, 0);
    }
    let mut lines = Vec::new(alloc);
    match copy_from(alloc, disks, watch, shape, peer, &mut lines) {
        Ok(()) => {}
        Err(fault) => return closed(alloc, status_of(fault), 0),
    }
    if put_all(sink, watch, lines.as_slice()).is_err() {
        return closed(alloc, Status::WriteFault, 0);
    }
    closed(alloc, Status::Done, 0)
}

/// Whether a mark is that of a list.
fn has_list(mark: PeerMark) -> bool
    ensures { result ≡ is_read mark }
{
    match mark {
        PeerMark::Same | PeerMark::Behind { .. } | PeerMark::Differs { .. } => true,
        PeerMark::NoLog { .. } | PeerMark::Fault => false,
    }
}

/// How a run ends where the disks can't be compared, or a list can't be copied.
fn status_of(fault: ScrubFault) -> Status
    ensures { result ≡ scrub_status fault }
{
    match fault {
        ScrubFault::WrongShape { peer, found } => Status::WrongShape { peer, found },
        ScrubFault::NoMemory => Status::NoMemory,
    }
}
