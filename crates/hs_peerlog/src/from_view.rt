//! A peer's log from a view.
ghost use Rattle.std.specs.Prelude.{◌≡◌, ◌≤◌, false, true, ℕ, List, None, Some, IsSome, IfOk, IfErr, IfSome, OnOk};
ghost use Rattle.hs_entry.specs.declared.entry.Entry.{Entry};
ghost use Rattle.hs_side.specs.Current.{list_in};
ghost use Rattle.hs_side.specs.Headers.{own_header};
ghost use Rattle.hs_side.specs.declared.header.Header.{Header};
ghost use Rattle.hs_peerlog.specs.Caused.{IsCalm, IsCaused};
ghost use Rattle.hs_peerlog.specs.Heads.{own_head, KeepsHeader, LeavesHeader};
ghost use Rattle.hs_peerlog.specs.Images.{Is, IsAny, LeavesAny, LeavesEach, LeavesOnly};
ghost use Rattle.hs_peerlog.specs.Lists.{HasLog, IsKept, IsReady};
ghost use Rattle.hs_peerlog.specs.Opening.{is_own, refusal_in, IsRefusal};
ghost use Rattle.hs_peerlog.specs.Past.{PastStays};
ghost use Rattle.hs_peerlog.specs.Views.{IsAsViewed};

use crate::header::{is_own, own_header};
use crate::made::make_log;
use crate::{LogFault, PeerLog, PeerView};
use hs_limits::Shape;
use hs_ports::{Disk, Watch};
use hs_side::SideLog;

impl PeerLog {
    /// The log of a peer's disk that was read, and that stands as it was read: as `recover` gives it,
    /// without another look. Where both sides are blank it writes an empty log on side zero. Else it
    /// does nothing to the disk, and takes no memory.
    pub fn from_view<D: Disk>(
        view: PeerView,
        disk: &mut D,
        watch: &mut Watch,
        shape: Shape,
        peer: u8,
    ) -> Result<PeerLog, LogFault>
        requires { IsAsViewed D.tells view (D.size disk.old view.log.side) (D.stands disk.old) }

        ensures ready { IfOk result (λ log. IsReady D.tells log
            (D.size disk.new log.log.side) (D.stands disk.new)) }
        ensures sealed { IfOk result (λ log. log.waits ≡ None) }
        // The log's head: the peer's header, with the generation of the disk, or 1 where that is blank.
        ensures head { D.tells → IfOk result (λ log.
            log.log.head ≡ Some (own_head shape peer (D.stands disk.old).seen)) }
        ensures list { D.tells → (D.stands disk.old).last ≤ watch.old → (list : List (ℕ × Entry))
            → list_in (D.stands disk.old).seen ≡ Some list
            → IfOk result (λ log. HasLog log (D.stands disk.new) list None) }

        // What a read gives, whatever a crash leaves.
        ensures reads { D.tells → (list : List (ℕ × Entry))
            → list_in (D.stands disk.old).seen ≡ Some list → IfOk result (λ log.
            IsKept log ((D.stands disk.new).seen log.log.side) list None) }

        // Which fault it is, and that there is one where the disk is refused.
        ensures listed { D.tells → OnOk result (IsSome (list_in (D.stands disk.old).seen)) }
        ensures accepted { D.tells → OnOk result
            (refusal_in shape peer (D.stands disk.old).seen ≡ None) }
        ensures refused { D.tells → IfErr result (λ fault.
            IsRefusal fault (refusal_in shape peer (D.stands disk.old).seen)) }
        // Of a disk that is not blank nothing is touched, and only the header is refused.
        ensures untouched { IsSome view.log.head → disk.new ≡ disk.old }
        ensures cost { IsSome view.log.head → watch.new ≡ watch.old }
        ensures certain { IsSome view.log.head → IfErr result (λ fault.
            (found : Header) × (fault ≡ LogFault.WrongShape found)) }

        // What a crash leaves at each moment: the list that every image gave before.
        ensures any_moment { D.tells → (D.stands disk.old).last ≤ watch.old
            → (list : List (ℕ × Entry)) → LeavesOnly (D.stands disk.old) list
            → LeavesEach watch.old watch.new (D.stands disk.old) (D.stands disk.new) (Is list) }
        ensures any_of { D.tells → (D.stands disk.old).last ≤ watch.old
            → (lists : ℕ → List (ℕ × Entry)) → LeavesAny (D.stands disk.old) lists
            → LeavesEach watch.old watch.new (D.stands disk.old) (D.stands disk.new)
            (IsAny lists) }
        ensures headed { D.tells → (D.stands disk.old).last ≤ watch.old
            → LeavesHeader (D.stands disk.old) (own_header shape peer)
            → KeepsHeader watch.old (D.stands disk.new) (own_header shape peer) }
        ensures past { D.tells → (D.stands disk.old).last ≤ watch.old
            → PastStays watch.old watch.new (D.stands disk.old) (D.stands disk.new) }
        ensures ticks { watch.old ≤ watch.new }
        ensures calm { IsCalm (D.faults disk.old) (D.faults disk.new) result }
        ensures cause { IsCaused (D.faults disk.old) (D.faults disk.new) result }
    {
        let PeerView { alloc, log, rank } = view;
        match check_log(&log, shape, peer) {
            Ok(()) => {}
            Err(fault) => return Err(fault),
        }
        let header = own_header(shape, peer);
        let log = match make_log(alloc, log, disk, watch, header) {
            Ok(log) => log,
            Err(fault) => return Err(fault),
        };
        Ok(PeerLog {
            alloc,
            log,
            rank,
            waits: None,
        })
    }
}

/// Whether the log of a side has the header of this peer's disk, or the side is blank.
fn check_log(log: &SideLog, shape: Shape, peer: u8) -> Result<(), LogFault>
    ensures own { OnOk result (IfSome log.now.head (λ head. is_own shape peer head.0 ≡ true)) }
    ensures other { IfErr result (λ fault. (head : Header × ℕ) × (log.now.head ≡ Some head)
        × (is_own shape peer head.0 ≡ false) × (fault ≡ LogFault.WrongShape head.0)) }
{
    if log.generation().is_none() {
        return Ok(());
    }
    let found = log.header();
    if !is_own(shape, peer, found) {
        return Err(LogFault::WrongShape { found });
    }
    Ok(())
}
