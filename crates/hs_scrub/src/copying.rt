//! Copying the list of a peer over the others of its shard.
ghost use Rattle.std.specs.Prelude.{◌≡◌, ◌<◌, length, map, IfErr, IfOk};
ghost use Rattle.hs_scrub.specs.CopySteps.{Calls, CopyFronts, CopyOutcome};
ghost use Rattle.hs_scrub.specs.declared.fault.ScrubFault.TheVariants.{NoMemory};
ghost use Rattle.hs_side.specs.Standing.{Stands};
ghost use Rattle.hs_taking.specs.Disks.{seen_as, seen_at};

use crate::ScrubFault;
use crate::emptying::empty_disk;
use crate::giving::{Given, copy_list};
use hs_limits::Shape;
use hs_peerlog::PeerView;
use hs_ports::{Disk, Watch};
use std::alloc::Global;

/// Empties the disk of a peer, and gives it the list of the source.
pub(crate) fn copy_to<D: Disk>(
    alloc: Global,
    source: &PeerView,
    disks: &mut [D],
    watch: &mut Watch,
    shape: Shape,
    from: usize,
    peer: u8,
) -> Result<Given, ScrubFault>
    requires from { from < length disks.old }
    requires place { peer < length disks.old }
    requires other { from ≡ peer → ⊥ }
    requires source { Stands D.tells source.now.log ((seen_at (map (λ disk. seen_as (D.size disk)
        (D.stands disk) (D.faults disk)) disks.old)
        from).size source.now.log.side)
        (seen_at (map (λ disk. seen_as (D.size disk) (D.stands disk) (D.faults disk)) disks.old)
        from).stands }
    ensures outcome { IfOk result (CopyOutcome D.tells shape source.now watch.old from peer
        (map (λ disk. seen_as (D.size disk) (D.stands disk) (D.faults disk)) disks.old)
        (map (λ disk. seen_as (D.size disk) (D.stands disk) (D.faults disk)) disks.new)) }
    ensures memory { IfErr result (λ fault. fault ≡ NoMemory) }
    ensures fronts { CopyFronts D.tells source.now watch.old watch.new
        (seen_at (map (λ disk. seen_as (D.size disk) (D.stands disk) (D.faults disk)) disks.old)
        from)
        (seen_at (map (λ disk. seen_as (D.size disk) (D.stands disk) (D.faults disk)) disks.old)
        peer)
        (seen_at (map (λ disk. seen_as (D.size disk) (D.stands disk) (D.faults disk)) disks.new)
        peer) }
    ensures calls { Calls D.tells from peer watch.old watch.new
        (map (λ disk. seen_as (D.size disk) (D.stands disk) (D.faults disk)) disks.old)
        (map (λ disk. seen_as (D.size disk) (D.stands disk) (D.faults disk)) disks.new) }
    ensures count { length disks.new ≡ length disks.old }
{
    let place = usize::from(peer);
    let log = match empty_disk(alloc, &mut disks[place], watch, shape, peer) {
        Ok(Some(log)) => log,
        Ok(None) => return Ok(Given::Left),
        Err(fault) => return Err(fault),
    };
    copy_list(source, log, disks, watch, from, place)
}
