//! The frame of an entry, behind the last gate.
ghost use Rattle.std.specs.Prelude.{◌≡◌, ◌≤◌, ◌+◌, [], ◌∷◌, ◌++◌, length, None, Some, IsSome, OnOk, IfErr, IsErrOf};
ghost use Rattle.hs_ports.specs.Disk.{other_side, overwritten};
ghost use Rattle.hs_ports.specs.Moments.{EachMoment};
ghost use Rattle.hs_ports.specs.Watch.{next_moment};
ghost use Rattle.hs_entry.specs.Payload.{payload};
ghost use Rattle.hs_entry.specs.Reading.{IsReadable};
ghost use Rattle.hs_side.specs.Caused.{IsCalm, IsCaused, IsOutside};
ghost use Rattle.hs_side.specs.Giving.{GivesSame};
ghost use Rattle.hs_side.specs.Reading.{log_of, with_frame};
ghost use Rattle.hs_side.specs.Spelling.{body};
ghost use Rattle.hs_side.specs.Standing.{Stands, MayCome, opened};

use crate::device::put;
use crate::lay::lay_entry;
use crate::{SideFault, SideLog};
use hs_entry::Entry;
use hs_ports::{Disk, Watch};

impl SideLog {
    /// Writes the frame of an entry as `append` does, from where its payload was written first: no
    /// byte of it is copied once more. Without memory nothing changes. After `Disk` the side must be
    /// opened again.
    pub fn append_entry<D: Disk>(
        &mut self,
        disk: &mut D,
        watch: &mut Watch,
        number: u64,
        entry: &Entry,
    ) -> Result<(), SideFault>
        requires stands { Stands D.tells self.old (D.size disk.old self.old.side) (D.stands disk.old) }
        requires holds { IsSome self.old.head }
        requires sealed { self.old.waiting ≡ None }
        requires readable { IsReadable entry.now }
        requires comes { D.tells → MayCome ((D.stands disk.old).seen self.old.side)
            (payload number entry.now) }

        ensures value { OnOk result (self.new ≡ record self.old {
          waiting = Some (self.old.end + 5 + length (payload number entry.now));
        }) }
        ensures stands { OnOk result (
            Stands D.tells self.new (D.size disk.new self.new.side) (D.stands disk.new)) }
        ensures written { D.tells → OnOk result ((D.stands disk.new).seen self.old.side
            ≡ overwritten (self.old.end + 1) (body (payload number entry.now) ++ 0 ∷ [])
            ((D.stands disk.old).seen self.old.side)) }

        // What is read stays, and it will be one frame more.
        ensures same { D.tells → OnOk result (GivesSame
            ((D.stands disk.old).seen self.old.side) ((D.stands disk.new).seen self.old.side)) }
        ensures later { D.tells → OnOk result (
            log_of (opened self.old.end ((D.stands disk.new).seen self.old.side))
            ≡ with_frame (record { place = self.old.end; number = number; entry = entry.now })
            (log_of ((D.stands disk.old).seen self.old.side))) }

        ensures refused { IfErr result IsOutside }
        ensures kept { IsErrOf result SideFault.NoMemory → (self.new ≡ self.old)
            × Stands D.tells self.new (D.size disk.new self.new.side) (D.stands disk.new) }

        ensures other { D.size disk.new (other_side self.old.side)
            ≡ D.size disk.old (other_side self.old.side) }

        ensures any_moment { D.tells → (D.stands disk.old).last ≤ watch.old →
            EachMoment watch.old watch.new self.old.side (D.stands disk.old) (D.stands disk.new)
            (GivesSame ((D.stands disk.old).seen self.old.side)) }
        // It costs one call that changes the disk: no sync.
        ensures cost { OnOk result (watch.new ≡ next_moment watch.old) }
        ensures ticks { watch.old ≤ watch.new }
        ensures calm { IsCalm (D.faults disk.old) (D.faults disk.new) result }
        ensures cause { IsCaused (D.faults disk.old) (D.faults disk.new) result }
    {
        self.places.reserve(1)?;
        let len = match lay_entry(number, entry, &mut self.frame) {
            Ok(len) => len,
            Err(fault) => return Err(fault),
        };
        put(disk, watch, self.side, self.end + 1, &self.frame)?;
        self.waiting = Some(self.end + 5 + len as u64);
        Ok(())
    }
}
