//! A frame more, behind the last gate.
ghost use Rattle.std.specs.Prelude.{◌≡◌, ◌≤◌, ◌+◌, [], ◌∷◌, ◌++◌, ℕ, length, None, Some, IsSome, Ok, OnOk, IfErr, IsErrOf};
ghost use Rattle.hs_ports.specs.Disk.{other_side, overwritten};
ghost use Rattle.hs_ports.specs.Moments.{EachMoment};
ghost use Rattle.hs_ports.specs.Watch.{next_moment};
ghost use Rattle.hs_entry.specs.declared.entry.Entry.{Entry};
ghost use Rattle.hs_entry.specs.Reading.{entry_at};
ghost use Rattle.hs_side.specs.declared.frame.TheConstants.{MOST_PAYLOAD};
ghost use Rattle.hs_side.specs.Caused.{IsCalm, IsCaused, IsOutside};
ghost use Rattle.hs_side.specs.Giving.{GivesSame};
ghost use Rattle.hs_side.specs.Reading.{log_of, with_frame};
ghost use Rattle.hs_side.specs.Spelling.{body};
ghost use Rattle.hs_side.specs.Standing.{Stands, MayCome, opened};

use crate::device::put;
use crate::lay::lay_payload;
use crate::{SideFault, SideLog};
use hs_ports::{Disk, Watch};

impl SideLog {
    /// Writes a frame behind the last gate, in one write: its length, its payload, and the closed
    /// gate behind it. Its own gate stays closed until `seal`. It makes the room for the place that
    /// `seal` adds. Without memory nothing changes. After `Disk` the side must be opened again: what
    /// the value says then is open.
    pub fn append<D: Disk>(
        &mut self,
        disk: &mut D,
        watch: &mut Watch,
        payload: &[u8],
    ) -> Result<(), SideFault>
        requires stands { Stands D.tells self.old (D.size disk.old self.old.side) (D.stands disk.old) }
        requires holds { IsSome self.old.head }
        requires sealed { self.old.waiting ≡ None }
        requires short { length payload.now ≤ MOST_PAYLOAD }
        requires comes { D.tells → MayCome ((D.stands disk.old).seen self.old.side) payload.now }

        ensures value { OnOk result (self.new ≡ record self.old {
          waiting = Some (self.old.end + 5 + length payload.now);
        }) }
        ensures stands { OnOk result (
            Stands D.tells self.new (D.size disk.new self.new.side) (D.stands disk.new)) }
        ensures written { D.tells → OnOk result ((D.stands disk.new).seen self.old.side
            ≡ overwritten (self.old.end + 1) (body payload.now ++ 0 ∷ [])
            ((D.stands disk.old).seen self.old.side)) }

        // What is read stays, and it will be one frame more.
        ensures same { D.tells → OnOk result (GivesSame
            ((D.stands disk.old).seen self.old.side) ((D.stands disk.new).seen self.old.side)) }
        ensures later { D.tells → OnOk result ((number : ℕ) (entry : Entry)
            → entry_at payload.now ≡ Ok (number, entry)
            → log_of (opened self.old.end ((D.stands disk.new).seen self.old.side))
            ≡ with_frame (record { place = self.old.end; number = number; entry = entry })
            (log_of ((D.stands disk.old).seen self.old.side))) }

        ensures refused { IfErr result IsOutside }
        ensures kept { IsErrOf result SideFault.NoMemory → (self.new ≡ self.old)
            × Stands D.tells self.new (D.size disk.new self.new.side) (D.stands disk.new) }

        ensures other { D.size disk.new (other_side self.old.side)
            ≡ D.size disk.old (other_side self.old.side) }

        ensures any_moment { D.tells → (D.stands disk.old).last ≤ watch.old →
            EachMoment watch.old watch.new self.old.side (D.stands disk.old) (D.stands disk.new)
            (GivesSame ((D.stands disk.old).seen self.old.side)) }
        // It costs one call that changes the disk: no sync.
        ensures cost { OnOk result (watch.new ≡ next_moment watch.old) }
        ensures ticks { watch.old ≤ watch.new }
        ensures calm { IsCalm (D.faults disk.old) (D.faults disk.new) result }
        ensures cause { IsCaused (D.faults disk.old) (D.faults disk.new) result }
    {
        self.places.reserve(1)?;
        lay_payload(payload, &mut self.frame)?;
        put(disk, watch, self.side, self.end + 1, &self.frame)?;
        self.waiting = Some(self.end + 5 + payload.len() as u64);
        Ok(())
    }
}
