//! Emptying a peer's log.
ghost use Rattle.std.specs.Prelude.{◌≡◌, ◌≤◌, [], ℕ, List, Option, None, Some, OnOk, IfErr};
ghost use Rattle.hs_entry.specs.declared.entry.Entry.{Entry};
ghost use Rattle.hs_peerlog.specs.Caused.{IsCalm, IsCaused, IsOutside};
ghost use Rattle.hs_side.specs.declared.header.Header.{Header};
ghost use Rattle.hs_peerlog.specs.Heads.{KeepsHeader};
ghost use Rattle.hs_peerlog.specs.Images.{IsOne, LeavesEach};
ghost use Rattle.hs_peerlog.specs.Lists.{HasLog, IsReady};
ghost use Rattle.hs_peerlog.specs.Past.{PastStays};

use crate::empty::{close_other, close_own, write_empty};
use crate::{LogFault, PeerLog};
use hs_entry::Rank;
use hs_ports::{Disk, Watch};

impl PeerLog {
    /// Empties the log, also of an entry that waits: closes the other side, then this one, and writes
    /// an empty log on it, of the same generation. After a fault the log must be recovered again.
    pub fn reset<D: Disk>(&mut self, disk: &mut D, watch: &mut Watch) -> Result<(), LogFault>
        requires ready { IsReady D.tells self.old (D.size disk.old self.old.log.side)
            (D.stands disk.old) }

        ensures ready { OnOk result (IsReady D.tells self.new
            (D.size disk.new self.new.log.side) (D.stands disk.new)) }
        ensures sealed { OnOk result (self.new.waits ≡ None) }
        ensures head { OnOk result (self.new.log.head ≡ self.old.log.head) }
        ensures list { D.tells → (D.stands disk.old).last ≤ watch.old → (list : List (ℕ × Entry))
            → (waiting : Option Entry) → HasLog self.old (D.stands disk.old) list waiting
            → OnOk result (HasLog self.new (D.stands disk.new) [] None) }

        ensures refused { IfErr result IsOutside }

        // What a crash leaves at each moment: the list before, or the empty one.
        ensures any_moment { D.tells → (D.stands disk.old).last ≤ watch.old
            → (list : List (ℕ × Entry)) → (waiting : Option Entry)
            → HasLog self.old (D.stands disk.old) list waiting
            → LeavesEach watch.old watch.new (D.stands disk.old) (D.stands disk.new)
            (IsOne list []) }
        ensures headed { D.tells → (D.stands disk.old).last ≤ watch.old
            → (list : List (ℕ × Entry)) → (waiting : Option Entry)
            → HasLog self.old (D.stands disk.old) list waiting
            → (head : Header × ℕ) → self.old.log.head ≡ Some head
            → KeepsHeader watch.old (D.stands disk.new) head.0 }
        ensures past { D.tells → (D.stands disk.old).last ≤ watch.old
            → PastStays watch.old watch.new (D.stands disk.old) (D.stands disk.new) }
        ensures ticks { watch.old ≤ watch.new }
        ensures calm { IsCalm (D.faults disk.old) (D.faults disk.new) result }
        ensures cause { IsCaused (D.faults disk.old) (D.faults disk.new) result }
    {
        let side = self.log.side();
        let header = self.log.header();
        let Some(generation) = self.log.generation() else {
            unreachable!()
        };
        // While the other side is not blank, this one must not be.
        close_other(self.alloc, disk, watch, side)?;
        close_own(self.alloc, disk, watch, side)?;
        let log = match write_empty(self.alloc, disk, watch, side, header, generation) {
            Ok(log) => log,
            Err(fault) => return Err(fault),
        };
        self.log = log;
        self.rank = Rank { view: 0, number: 0 };
        self.waits = None;
        Ok(())
    }
}
