//! An entry more, which is not sealed yet.
ghost use Rattle.std.specs.Prelude.{◌≡◌, ◌≤◌, ◌+◌, ℕ, List, None, Some, OnOk, IfErr, IsErrOf};
ghost use Rattle.hs_ports.specs.Watch.{next_moment};
ghost use Rattle.hs_entry.specs.declared.entry.Entry.{Entry};
ghost use Rattle.hs_entry.specs.Entries.{rank_after};
ghost use Rattle.hs_entry.specs.Reading.{IsReadable};
ghost use Rattle.hs_peerlog.specs.Caused.{IsCalm, IsCaused, IsOutside};
ghost use Rattle.hs_side.specs.declared.header.Header.{Header};
ghost use Rattle.hs_peerlog.specs.Heads.{KeepsHeader};
ghost use Rattle.hs_peerlog.specs.Images.{Is, LeavesEach};
ghost use Rattle.hs_peerlog.specs.Lists.{HasLog, IsKept, IsReady};
ghost use Rattle.hs_peerlog.specs.Past.{PastStays};

use crate::{LogFault, PeerLog};
use hs_entry::Entry;
use hs_ports::{Disk, Watch};

impl PeerLog {
    /// Puts an entry behind the others, with its gate closed: it is none of the list until `seal`.
    /// It does not sync. Without memory nothing changes. After `Disk` the log must be recovered
    /// again; what it tells without the disk is as it was.
    pub fn append<D: Disk>(
        &mut self,
        disk: &mut D,
        watch: &mut Watch,
        number: u64,
        entry: &Entry,
    ) -> Result<(), LogFault>
        requires ready { IsReady D.tells self.old (D.size disk.old self.old.log.side)
            (D.stands disk.old) }
        requires next { number ≡ self.old.rank.number + 1 }
        requires readable { IsReadable entry.now }
        requires none { self.old.waits ≡ None }

        ensures ready { OnOk result (IsReady D.tells self.new
            (D.size disk.new self.new.log.side) (D.stands disk.new)) }
        ensures waits { OnOk result (self.new.waits
            ≡ Some (rank_after self.old.rank number entry.now)) }
        ensures rank { OnOk result (self.new.rank ≡ self.old.rank) }
        ensures head { OnOk result (self.new.log.head ≡ self.old.log.head) }
        ensures list { D.tells → (D.stands disk.old).last ≤ watch.old → (list : List (ℕ × Entry))
            → HasLog self.old (D.stands disk.old) list None
            → OnOk result (HasLog self.new (D.stands disk.new) list (Some entry.now)) }

        // What a read gives, whatever a crash leaves.
        ensures reads { D.tells → (list : List (ℕ × Entry))
            → IsKept self.old ((D.stands disk.old).seen self.old.log.side) list None
            → OnOk result (IsKept self.new ((D.stands disk.new).seen self.new.log.side) list
            (Some entry.now)) }

        ensures refused { IfErr result IsOutside }
        ensures kept { IsErrOf result LogFault.NoMemory → self.new ≡ self.old }
        ensures stays { IfErr result (λ fault. (self.new.rank ≡ self.old.rank)
            × (self.new.waits ≡ self.old.waits)) }

        // What a crash leaves at each moment: the list before.
        ensures any_moment { D.tells → (D.stands disk.old).last ≤ watch.old
            → (list : List (ℕ × Entry)) → HasLog self.old (D.stands disk.old) list None
            → LeavesEach watch.old watch.new (D.stands disk.old) (D.stands disk.new) (Is list) }
        ensures headed { D.tells → (D.stands disk.old).last ≤ watch.old
            → (list : List (ℕ × Entry)) → HasLog self.old (D.stands disk.old) list None
            → (head : Header × ℕ) → self.old.log.head ≡ Some head
            → KeepsHeader watch.old (D.stands disk.new) head.0 }
        ensures past { D.tells → (D.stands disk.old).last ≤ watch.old
            → PastStays watch.old watch.new (D.stands disk.old) (D.stands disk.new) }
        // It costs one call that changes the disk: no sync.
        ensures cost { OnOk result (watch.new ≡ next_moment watch.old) }
        ensures ticks { watch.old ≤ watch.new }
        ensures calm { IsCalm (D.faults disk.old) (D.faults disk.new) result }
        ensures cause { IsCaused (D.faults disk.old) (D.faults disk.new) result }
    {
        self.log.append_entry(disk, watch, number, entry)?;
        self.waits = Some(self.rank.after(number, entry));
        Ok(())
    }
}
