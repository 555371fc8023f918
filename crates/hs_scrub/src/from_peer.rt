//! Copying the list of a peer over the others of its shard.
ghost use Rattle.std.specs.Prelude.{◌≡◌, ◌*◌, ◌<◌, ◌≤◌, ◌++◌, ℕ, List, Some, length, map, IfErr, IfOk, OnOk};
ghost use Rattle.hs_entry.specs.declared.entry.Entry.{Entry};
ghost use Rattle.hs_limits.specs.Shape.{IsShape};
ghost use Rattle.hs_peerlog.specs.declared.fault.LogFault.TheVariants as log;
ghost use Rattle.hs_peerlog.specs.Opening.{refusal_in};
ghost use Rattle.hs_ports.specs.Fault.{HasRisen};
ghost use Rattle.hs_scrub.specs.Copied.{AreBeside, HasCopied, IsOtherSource, KeepsFronts};
ghost use Rattle.hs_scrub.specs.CopySteps.{Calls, CopyFronts, HasGiven, OneGiven, Spares};
ghost use Rattle.hs_scrub.specs.declared.fault.ScrubFault.TheVariants.{NoMemory, WrongShape};
ghost use Rattle.hs_scrub.specs.Text.{line_of};
ghost use Rattle.hs_side.specs.Current.{list_in};
ghost use Rattle.hs_side.specs.declared.header.Header.{Header};
ghost use Rattle.hs_side.specs.Standing.{Stands};
ghost use Rattle.hs_taking.specs.Disks.{seen_as, seen_at};
ghost use Rattle.hs_taking.specs.Viewed.{IsOnlyRead};

use crate::copying::copy_to;
use crate::giving::Given;
use crate::text::put_line;
use crate::{PeerMark, ScrubFault};
use hs_limits::Shape;
use hs_peerlog::{LogFault, PeerView};
use hs_ports::{Disk, Watch};
use std::alloc::Global;

/// Empties each other peer of the shard of `from`, and gives it that peer's list. A peer whose disk
/// fails, or is of another store, is left, and its line put at the end of `out`. Where the disk of
/// `from` fails, or is no log, the copying ends with its line. A disk of `from` that is of another
/// store, or of another peer, ends it before anything is written.
pub fn copy_from<D: Disk>(
    alloc: Global,
    disks: &mut [D],
    watch: &mut Watch,
    shape: Shape,
    from: u8,
    out: &mut Vec<u8>,
) -> Result<(), ScrubFault>
    requires shape { IsShape shape }
    requires count { length disks.old ≡ shape.shards * shape.copies }
    requires from { from < shape.shards * shape.copies }
    ensures copied { OnOk result (HasCopied D.tells shape from watch.old
        (map (λ disk. seen_as (D.size disk) (D.stands disk) (D.faults disk)) disks.old)
        (map (λ disk. seen_as (D.size disk) (D.stands disk) (D.faults disk)) disks.new)
        out.old.items out.new.items) }

    // A disk of another store: that there is one, and that there is none where it copies.
    ensures other { IfErr result (IsOtherSource D.tells shape from
        (seen_at (map (λ disk. seen_as (D.size disk) (D.stands disk) (D.faults disk)) disks.old)
        from)
        (seen_at (map (λ disk. seen_as (D.size disk) (D.stands disk) (D.faults disk)) disks.new)
        from)) }
    ensures own { D.tells → OnOk result ((found : Header) → refusal_in shape from
        (seen_at (map (λ disk. seen_as (D.size disk) (D.stands disk) (D.faults disk)) disks.old)
        from).stands.seen
        ≡ Some (log.WrongShape found) → HasRisen
        (seen_at (map (λ disk. seen_as (D.size disk) (D.stands disk) (D.faults disk)) disks.old)
        from).faults
        (seen_at (map (λ disk. seen_as (D.size disk) (D.stands disk) (D.faults disk)) disks.new)
        from).faults) }
    ensures unwritten { IfErr result (λ fault. (at : ℕ) (found : Header) → fault ≡ WrongShape at found
        → (peer : ℕ) → (peer ≡ from → ⊥) →
        (seen_at (map (λ disk. seen_as (D.size disk) (D.stands disk) (D.faults disk)) disks.new)
        peer)
        ≡ (seen_at (map (λ disk. seen_as (D.size disk) (D.stands disk) (D.faults disk)) disks.old)
        peer)) }

    // Whatever it answers: the copied peer's disk is only read, those of other shards are not called,
    // and a stop leaves the old list of each other disk, or a front of the copied one.
    ensures source { IsOnlyRead D.tells watch.old watch.new
        (seen_at (map (λ disk. seen_as (D.size disk) (D.stands disk) (D.faults disk)) disks.old)
        from)
        (seen_at (map (λ disk. seen_as (D.size disk) (D.stands disk) (D.faults disk)) disks.new)
        from) }
    ensures others { (peer : ℕ) → (AreBeside shape from peer → ⊥) →
        (seen_at (map (λ disk. seen_as (D.size disk) (D.stands disk) (D.faults disk)) disks.new)
        peer)
        ≡ (seen_at (map (λ disk. seen_as (D.size disk) (D.stands disk) (D.faults disk)) disks.old)
        peer) }
    ensures fronts { (peer : ℕ) → peer < length disks.old → (peer ≡ from → ⊥)
        → (copied : List (ℕ × Entry)) → (D.tells → list_in
        (seen_at (map (λ disk. seen_as (D.size disk) (D.stands disk) (D.faults disk)) disks.old)
        from).stands.seen ≡ Some copied)
        → KeepsFronts D.tells watch.old watch.new
        (seen_at (map (λ disk. seen_as (D.size disk) (D.stands disk) (D.faults disk)) disks.old)
        peer)
        (seen_at (map (λ disk. seen_as (D.size disk) (D.stands disk) (D.faults disk)) disks.new)
        peer) copied }
    ensures counted { (peer : ℕ) → (seen_at (map (λ disk. seen_as (D.size disk) (D.stands disk) (D.faults disk)) disks.old)
        peer).faults
        ≤ (seen_at (map (λ disk. seen_as (D.size disk) (D.stands disk) (D.faults disk)) disks.new)
        peer).faults }
    ensures count { length disks.new ≡ length disks.old }
    ensures ticks { watch.old ≤ watch.new }
{
    let place = usize::from(from);
    let source = match PeerView::read(alloc, &mut disks[place], watch, shape, from) {
        Ok(source) => source,
        Err(LogFault::Disk) => return put_mark(from, PeerMark::Fault, out),
        Err(LogFault::NotALog { at }) => return put_mark(from, PeerMark::NoLog { at }, out),
        Err(LogFault::WrongShape { found }) => {
            return Err(ScrubFault::WrongShape { peer: from, found });
        }
        Err(LogFault::NoMemory) => return Err(ScrubFault::NoMemory),
    };
    copy_to_all(alloc, &source, disks, watch, shape, from, out)
}

/// Copies the list of the source to each other peer of its shard.
fn copy_to_all<D: Disk>(
    alloc: Global,
    source: &PeerView,
    disks: &mut [D],
    watch: &mut Watch,
    shape: Shape,
    from: u8,
    out: &mut Vec<u8>,
) -> Result<(), ScrubFault>
    requires shape { IsShape shape }
    requires total { length disks.old ≡ shape.shards * shape.copies }
    requires from { from < shape.shards * shape.copies }
    requires source { Stands D.tells source.now.log ((seen_at (map (λ disk. seen_as (D.size disk)
        (D.stands disk) (D.faults disk)) disks.old)
        from).size source.now.log.side)
        (seen_at (map (λ disk. seen_as (D.size disk) (D.stands disk) (D.faults disk)) disks.old)
        from).stands }
    ensures given { OnOk result (HasGiven D.tells shape source.now from watch.old
        (shape.shards * shape.copies)
        (map (λ disk. seen_as (D.size disk) (D.stands disk) (D.faults disk)) disks.old)
        (map (λ disk. seen_as (D.size disk) (D.stands disk) (D.faults disk)) disks.new)
        out.old.items out.new.items) }
    ensures spares { Spares D.tells shape source.now from watch.old watch.new
        (shape.shards * shape.copies)
        (map (λ disk. seen_as (D.size disk) (D.stands disk) (D.faults disk)) disks.old)
        (map (λ disk. seen_as (D.size disk) (D.stands disk) (D.faults disk)) disks.new) }
    ensures memory { IfErr result (λ fault. fault ≡ NoMemory) }
    ensures count { length disks.new ≡ length disks.old }
{
    for peer in 0..shape.shards * shape.copies {
        let ended = match copy_one(alloc, source, disks, watch, shape, from, peer, out) {
            Ok(ended) => ended,
            Err(fault) => return Err(fault),
        };
        match ended {
            Some(mark) => return put_mark(from, mark, out),
            None => {}
        }
    }
    Ok(())
}

/// Copies the list of the source to a peer, where that is another one of its shard: the mark of the
/// source, where a read of it was refused. Where the peer is left, its line is put.
fn copy_one<D: Disk>(
    alloc: Global,
    source: &PeerView,
    disks: &mut [D],
    watch: &mut Watch,
    shape: Shape,
    from: u8,
    peer: u8,
    out: &mut Vec<u8>,
) -> Result<Option<PeerMark>, ScrubFault>
    requires shape { IsShape shape }
    requires from { from < length disks.old }
    requires place { peer < length disks.old }
    requires source { Stands D.tells source.now.log ((seen_at (map (λ disk. seen_as (D.size disk)
        (D.stands disk) (D.faults disk)) disks.old)
        from).size source.now.log.side)
        (seen_at (map (λ disk. seen_as (D.size disk) (D.stands disk) (D.faults disk)) disks.old)
        from).stands }
    ensures given { IfOk result (OneGiven D.tells shape source.now from peer watch.old
        (map (λ disk. seen_as (D.size disk) (D.stands disk) (D.faults disk)) disks.old)
        (map (λ disk. seen_as (D.size disk) (D.stands disk) (D.faults disk)) disks.new)
        out.old.items out.new.items) }
    ensures calls { Calls D.tells from peer watch.old watch.new
        (map (λ disk. seen_as (D.size disk) (D.stands disk) (D.faults disk)) disks.old)
        (map (λ disk. seen_as (D.size disk) (D.stands disk) (D.faults disk)) disks.new) }
    ensures spared { (AreBeside shape from peer → ⊥) →
        (seen_at (map (λ disk. seen_as (D.size disk) (D.stands disk) (D.faults disk)) disks.new)
        peer)
        ≡ (seen_at (map (λ disk. seen_as (D.size disk) (D.stands disk) (D.faults disk)) disks.old)
        peer) }
    ensures fronts { (peer ≡ from → ⊥) → CopyFronts D.tells source.now watch.old watch.new
        (seen_at (map (λ disk. seen_as (D.size disk) (D.stands disk) (D.faults disk)) disks.old)
        from)
        (seen_at (map (λ disk. seen_as (D.size disk) (D.stands disk) (D.faults disk)) disks.old)
        peer)
        (seen_at (map (λ disk. seen_as (D.size disk) (D.stands disk) (D.faults disk)) disks.new)
        peer) }
    ensures memory { IfErr result (λ fault. fault ≡ NoMemory) }
    ensures count { length disks.new ≡ length disks.old }
{
    if peer == from || peer / shape.copies != from / shape.copies {
        return Ok(None);
    }
    match copy_to(alloc, source, disks, watch, shape, usize::from(from), peer) {
        Ok(Given::Whole) => Ok(None),
        Ok(Given::Left) => match put_mark(peer, PeerMark::Fault, out) {
            Ok(()) => Ok(None),
            Err(fault) => Err(fault),
        },
        Ok(Given::Ended { mark }) => Ok(Some(mark)),
        Err(fault) => Err(fault),
    }
}

/// Puts the line of a peer's mark at the end of `out`.
fn put_mark(peer: u8, mark: PeerMark, out: &mut Vec<u8>) -> Result<(), ScrubFault>
    ensures ok { OnOk result (out.new.items ≡ out.old.items ++ line_of 0 peer mark) }
    ensures memory { IfErr result (λ fault. fault ≡ NoMemory) }
{
    match put_line(0, usize::from(peer), mark, out) {
        Ok(()) => Ok(()),
        Err(_) => Err(ScrubFault::NoMemory),
    }
}
