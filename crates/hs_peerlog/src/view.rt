//! A peer's list that is only read.
ghost use Rattle.std.specs.Prelude.{◌≡◌, ◌≤◌, ◌+◌, ℕ, List, None, Some, IsSome, is_some, IfOk, IfErr, OnOk, slice_index};
ghost use Rattle.hs_ports.specs.declared.disk.Side.{Side};
ghost use Rattle.hs_ports.specs.Disk.{settled};
ghost use Rattle.hs_entry.specs.declared.entry.Entry.{Entry};
ghost use Rattle.hs_side.specs.Current.{list_in};
ghost use Rattle.hs_side.specs.Standing.{Stands};
ghost use Rattle.hs_peerlog.specs.Caused.{IsCalm, IsCaused, IsOutside};
ghost use Rattle.hs_peerlog.specs.Heads.{head_found};
ghost use Rattle.hs_peerlog.specs.Images.{LeavesAll};
ghost use Rattle.hs_peerlog.specs.Lists.{has_place, numbered_entry};
ghost use Rattle.hs_peerlog.specs.Opening.{refusal_in, IsRefusal};
ghost use Rattle.hs_peerlog.specs.Views.{HasView, IsAsViewed};

use crate::LogFault;
use crate::opening::open_current;
use crate::read::entry_of;
use hs_entry::{Entry, Rank};
use hs_limits::Shape;
use hs_ports::{Disk, Watch};
use hs_side::SideLog;
use std::alloc::Global;
use std::marker::Model;

/// A peer's list on its disk, which is handed to each call and is never written. It is of use as
/// long as the disk stays as it was read.
#[derive(Drop)]
pub struct PeerView {
    pub(crate) alloc: Global,
    pub(crate) log: SideLog,
    pub(crate) rank: Rank,
}

impl Model for PeerView {
    ghost use Rattle.hs_peerlog.specs.Views.{Viewing};

    ghost Value = { Viewing };

    ghost view = { λ a. record { log = a.log; rank = a.rank } };
}

impl PeerView {
    /// Reads the disk of a peer: puts both sides on the medium, and reads the current one. It writes
    /// nothing. Two blank sides are the empty list.
    pub fn read<D: Disk>(
        alloc: Global,
        disk: &mut D,
        watch: &mut Watch,
        shape: Shape,
        peer: u8,
    ) -> Result<PeerView, LogFault>
        ensures stands { IfOk result (λ view. Stands D.tells view.log
            (D.size disk.new view.log.side) (D.stands disk.new)) }
        ensures as_viewed { IfOk result (λ view. IsAsViewed D.tells view
            (D.size disk.new view.log.side) (D.stands disk.new)) }
        // The head of the disk: the peer's header with its generation, None where it is blank.
        ensures head { D.tells → IfOk result (λ view.
            view.log.head ≡ head_found shape peer (D.stands disk.old).seen) }
        ensures list { D.tells → (list : List (ℕ × Entry))
            → list_in (D.stands disk.old).seen ≡ Some list
            → IfOk result (λ view. HasView view (D.stands disk.new).seen list) }

        // Which fault it is, and that there is one where the disk is refused.
        ensures listed { D.tells → OnOk result (IsSome (list_in (D.stands disk.old).seen)) }
        ensures accepted { D.tells → OnOk result
            (refusal_in shape peer (D.stands disk.old).seen ≡ None) }
        ensures refused { D.tells → IfErr result (λ fault.
            IsRefusal fault (refusal_in shape peer (D.stands disk.old).seen)) }

        // It writes nothing: reads stay, and a crash leaves what it could leave before.
        ensures same { D.tells → (s : Side)
            → (D.stands disk.new).seen s ≡ (D.stands disk.old).seen s }
        ensures same_size { (s : Side) → D.size disk.new s ≡ D.size disk.old s }
        ensures durable { D.tells → OnOk result ((s : Side)
            → (D.stands disk.new).loose s ≡ settled ((D.stands disk.old).seen s)) }
        ensures any_moment { D.tells → (D.stands disk.old).last ≤ watch.old →
            LeavesAll watch.old watch.new (D.stands disk.old) (D.stands disk.new) }
        ensures ticks { watch.old ≤ watch.new }
        ensures calm { IsCalm (D.faults disk.old) (D.faults disk.new) result }
        ensures cause { IsCaused (D.faults disk.old) (D.faults disk.new) result }
    {
        let (log, rank) = match open_current(alloc, disk, watch, shape, peer) {
            Ok(opened) => opened,
            Err(fault) => return Err(fault),
        };
        Ok(PeerView { alloc, log, rank })
    }

    /// The rank of the list. It takes no memory.
    pub fn rank(&self) -> Rank
        ensures { result ≡ self.now.rank }
    {
        self.rank
    }

    /// The number of the last entry, 0 where there is none. It takes no memory.
    pub fn last(&self) -> u64
        ensures { result ≡ self.now.rank.number }
    {
        self.rank.number
    }

    /// The entry of a number, and None exactly where none is kept. Where what is read is no entry of
    /// that number it answers `NotALog` with the place of the frame; a disk that tells its contents
    /// never gives that. It reads one frame.
    pub fn entry<D: Disk>(&self, disk: &mut D, number: u64) -> Result<Option<Entry>, LogFault>
        requires { Stands D.tells self.now.log (D.size disk.old self.now.log.side)
            (D.stands disk.old) }

        ensures found { D.tells → (list : List (ℕ × Entry))
            → HasView self.now (D.stands disk.old).seen list
            → IfOk result (λ found. found ≡ numbered_entry list number) }
        // Of any disk: it is None exactly where no entry of that number is kept.
        ensures kept { IfOk result (λ found.
            is_some found ≡ has_place self.now.log.places number) }
        ensures refused { D.tells → (list : List (ℕ × Entry))
            → HasView self.now (D.stands disk.old).seen list → IfErr result IsOutside }
        ensures place { IfErr result (λ fault. (at : ℕ) → fault ≡ LogFault.NotALog at
            → (i : ℕ) → number ≡ i + 1 → at ≡ slice_index self.now.log.places i) }

        ensures same { D.tells → D.stands disk.new ≡ D.stands disk.old }
        ensures same_size { (s : Side) → D.size disk.new s ≡ D.size disk.old s }
        ensures calm { IsCalm (D.faults disk.old) (D.faults disk.new) result }
        ensures cause { IsCaused (D.faults disk.old) (D.faults disk.new) result }
    {
        entry_of(self.alloc, &self.log, disk, number)
    }
}
