//! An empty log on a disk, whatever was on it.
ghost use Rattle.std.specs.Prelude.{◌≡◌, ◌≤◌, [], None, Some, IfOk, IfErr, OnOk};
ghost use Rattle.hs_ports.specs.declared.disk.Side.{Side};
ghost use Rattle.hs_side.specs.declared.header.Header.{Header};
ghost use Rattle.hs_side.specs.Giving.{IsBlankEverywhere};
ghost use Rattle.hs_side.specs.Headers.{own_header};
ghost use Rattle.hs_peerlog.specs.Caused.{IsCalm, IsCaused, IsOutside};
ghost use Rattle.hs_peerlog.specs.Heads.{IsBlankOrOf, KeepsHeader, LeavesHeader};
ghost use Rattle.hs_peerlog.specs.Lists.{HasLog, IsReady};
ghost use Rattle.hs_peerlog.specs.Past.{PastStays};
ghost use Rattle.hs_peerlog.specs.Steps.{ShowsEach};

use crate::empty::{close_other, close_own, write_empty};
use crate::header::own_header;
use crate::opening::current_side;
use crate::{LogFault, PeerLog};
use hs_entry::Rank;
use hs_limits::Shape;
use hs_ports::{Disk, Side, Watch};
use std::alloc::Global;

impl PeerLog {
    /// Makes a disk whose log can't be recovered an empty one: puts both sides on the medium, closes
    /// the other side before the current one, and writes an empty log on side zero. Of the lists at its moments nothing is said: its
    /// disk counts as blank.
    pub fn clear<D: Disk>(
        alloc: Global,
        disk: &mut D,
        watch: &mut Watch,
        shape: Shape,
        peer: u8,
    ) -> Result<PeerLog, LogFault>
        ensures ready { IfOk result (λ log. IsReady D.tells log
            (D.size disk.new log.log.side) (D.stands disk.new)) }
        ensures sealed { IfOk result (λ log. log.waits ≡ None) }
        ensures list { D.tells → (D.stands disk.old).last ≤ watch.old
            → IfOk result (λ log. HasLog log (D.stands disk.new) [] None) }
        ensures head { IfOk result (λ log. log.log.head ≡ Some (own_header shape peer, 1)) }

        ensures refused { IfErr result IsOutside }

        // Whose header a crash leaves at each moment, where it left no other's before.
        ensures headed { D.tells → (D.stands disk.old).last ≤ watch.old
            → LeavesHeader (D.stands disk.old) (own_header shape peer)
            → KeepsHeader watch.old (D.stands disk.new) (own_header shape peer) }
        ensures past { D.tells → (D.stands disk.old).last ≤ watch.old
            → PastStays watch.old watch.new (D.stands disk.old) (D.stands disk.new) }
        ensures ticks { watch.old ≤ watch.new }
        ensures calm { IsCalm (D.faults disk.old) (D.faults disk.new) result }
        ensures cause { IsCaused (D.faults disk.old) (D.faults disk.new) result }
    {
        close_both(alloc, disk, watch)?;
        let header = own_header(shape, peer);
        let log = match write_empty(alloc, disk, watch, Side::Zero, header, 1) {
            Ok(log) => log,
            Err(fault) => return Err(fault),
        };
        Ok(PeerLog {
            alloc,
            log,
            rank: Rank { view: 0, number: 0 },
            waits: None,
        })
    }
}

/// Puts both sides on the medium, and closes both: both are blank then, whatever a crash leaves.
fn close_both<D: Disk>(alloc: Global, disk: &mut D, watch: &mut Watch) -> Result<(), LogFault>
    ensures gone { D.tells → OnOk result ((side : Side)
        → IsBlankEverywhere ((D.stands disk.new).loose side)) }
    ensures refused { IfErr result IsOutside }

    ensures shown { (header : Header) → D.tells → (D.stands disk.old).last ≤ watch.old
        → LeavesHeader (D.stands disk.old) header
        → ShowsEach watch.old watch.new (D.stands disk.old) (D.stands disk.new)
        (IsBlankOrOf header) }
    ensures past { D.tells → (D.stands disk.old).last ≤ watch.old
        → PastStays watch.old watch.new (D.stands disk.old) (D.stands disk.new) }
    ensures ticks { watch.old ≤ watch.new }
    ensures calm { IsCalm (D.faults disk.old) (D.faults disk.new) result }
    ensures cause { IsCaused (D.faults disk.old) (D.faults disk.new) result }
{
    let side = match current_side(alloc, disk, watch) {
        Ok(side) => side,
        Err(fault) => return Err(fault),
    };
    // While the other side is not blank, the current one must not be: a crash would bring it back.
    close_other(alloc, disk, watch, side)?;
    close_own(alloc, disk, watch, side)?;
    Ok(())
}
