//! Reading a sealed frame.
ghost use Rattle.hs_ports.specs.declared.disk.Side.{Side};
ghost use Rattle.std.specs.Prelude.{◌≡◌, OnOk, OnErr, IfErr};
ghost use Rattle.std.specs.List.{Contains};
ghost use Rattle.hs_side.specs.Caused.{IsCalm, IsCaused, IsOutside};
ghost use Rattle.hs_side.specs.Opening.{ReadsAt};
ghost use Rattle.hs_side.specs.Standing.{Stands};

use crate::frame::read_payload;
use crate::{SideFault, SideLog};
use hs_ports::Disk;

impl SideLog {
    /// Appends the payload of the sealed frame at a place to `out`, or nothing. The disk puts the
    /// bytes there itself. A disk that tells its contents never gives `NotALog`: it comes where a
    /// later read gives no frame there.
    pub fn read<D: Disk>(
        &self,
        disk: &mut D,
        place: u64,
        out: &mut Vec<u8>,
    ) -> Result<(), SideFault>
        requires stands { Stands D.tells self.now (D.size disk.old self.now.side) (D.stands disk.old) }
        requires sealed { Contains self.now.places place }

        ensures found { D.tells → OnOk result (ReadsAt ((D.stands disk.old).seen self.now.side)
            place out.old.items out.new.items) }

        ensures refused { D.tells → IfErr result IsOutside }
        ensures untaken { OnErr result (out.new.items ≡ out.old.items) }

        ensures same { D.tells → D.stands disk.new ≡ D.stands disk.old }
        ensures same_size { (s : Side) → D.size disk.new s ≡ D.size disk.old s }

        ensures calm { IsCalm (D.faults disk.old) (D.faults disk.new) result }
        ensures cause { IsCaused (D.faults disk.old) (D.faults disk.new) result }
    {
        let size = disk.len(self.side)?;
        if place >= size {
            return Err(SideFault::NotALog { at: place });
        }
        read_payload(disk, self.side, size, place, out)
    }
}
