//! The entry that waits becomes one of the list.
ghost use Rattle.std.specs.Prelude.{◌≡◌, ◌≤◌, ℕ, List, None, Some, IsSome, IfSome, OnOk, IfErr};
ghost use Rattle.hs_ports.specs.Watch.{next_moment};
ghost use Rattle.hs_entry.specs.declared.entry.Entry.{Entry};
ghost use Rattle.hs_peerlog.specs.Caused.{IsCalm, IsCaused};
ghost use Rattle.hs_side.specs.declared.header.Header.{Header};
ghost use Rattle.hs_peerlog.specs.Heads.{KeepsHeader};
ghost use Rattle.hs_peerlog.specs.Images.{IsOne, LeavesEach};
ghost use Rattle.hs_peerlog.specs.Lists.{with_waiting, HasLog, IsKept, IsReady};
ghost use Rattle.hs_peerlog.specs.Past.{PastStays};

use crate::{LogFault, PeerLog};
use hs_ports::{Disk, Watch};

impl PeerLog {
    /// Seals the entry that waits: puts its frame on the medium, opens its gate, and puts that on
    /// the medium. After Ok no crash takes it away. It takes no memory. After `Disk` the log must be
    /// recovered again; what it tells without the disk is as it was, and the entry waits.
    pub fn seal<D: Disk>(&mut self, disk: &mut D, watch: &mut Watch) -> Result<(), LogFault>
        requires ready { IsReady D.tells self.old (D.size disk.old self.old.log.side)
            (D.stands disk.old) }
        requires waits { IsSome self.old.waits }

        ensures ready { OnOk result (IsReady D.tells self.new
            (D.size disk.new self.new.log.side) (D.stands disk.new)) }
        ensures rank { OnOk result (IfSome self.old.waits (λ rank. self.new.rank ≡ rank)) }
        ensures sealed { OnOk result (self.new.waits ≡ None) }
        ensures head { OnOk result (self.new.log.head ≡ self.old.log.head) }
        ensures list { D.tells → (D.stands disk.old).last ≤ watch.old → (list : List (ℕ × Entry))
            → (entry : Entry) → HasLog self.old (D.stands disk.old) list (Some entry)
            → OnOk result (HasLog self.new (D.stands disk.new) (with_waiting list entry) None) }

        // What a read gives, whatever a crash leaves.
        ensures reads { D.tells → (list : List (ℕ × Entry)) → (entry : Entry)
            → IsKept self.old ((D.stands disk.old).seen self.old.log.side) list (Some entry)
            → OnOk result (IsKept self.new ((D.stands disk.new).seen self.new.log.side)
            (with_waiting list entry) None) }

        ensures refused { IfErr result (λ fault. fault ≡ LogFault.Disk) }
        ensures stays { IfErr result (λ fault. (self.new.rank ≡ self.old.rank)
            × (self.new.waits ≡ self.old.waits)) }

        // What a crash leaves at each moment: the list before, or the list with the entry.
        ensures any_moment { D.tells → (D.stands disk.old).last ≤ watch.old
            → (list : List (ℕ × Entry)) → (entry : Entry)
            → HasLog self.old (D.stands disk.old) list (Some entry)
            → LeavesEach watch.old watch.new (D.stands disk.old) (D.stands disk.new)
            (IsOne list (with_waiting list entry)) }
        ensures headed { D.tells → (D.stands disk.old).last ≤ watch.old
            → (list : List (ℕ × Entry)) → (entry : Entry)
            → HasLog self.old (D.stands disk.old) list (Some entry)
            → (head : Header × ℕ) → self.old.log.head ≡ Some head
            → KeepsHeader watch.old (D.stands disk.new) head.0 }
        ensures past { D.tells → (D.stands disk.old).last ≤ watch.old
            → PastStays watch.old watch.new (D.stands disk.old) (D.stands disk.new) }
        // It costs three calls that change the disk, two of them syncs.
        ensures cost { OnOk result (watch.new
            ≡ next_moment (next_moment (next_moment watch.old))) }
        ensures ticks { watch.old ≤ watch.new }
        ensures calm { IsCalm (D.faults disk.old) (D.faults disk.new) result }
        ensures cause { IsCaused (D.faults disk.old) (D.faults disk.new) result }
    {
        let Some(rank) = self.waits else {
            unreachable!()
        };
        self.log.seal(disk, watch)?;
        self.rank = rank;
        self.waits = None;
        Ok(())
    }
}
