//! That the last lines of a load are begun.
ghost use Rattle.std.specs.Prelude.{ℕ, List};
ghost use Rattle.hs_limits.specs.declared.address.Address.{Address};
ghost use Rattle.hs_limits.specs.declared.shape.Shape.{Shape};
ghost use Rattle.hs_load.specs.Loaded.{IsLoaded};
ghost use Rattle.hs_promise.specs.Run.{Ran};
ghost use Rattle.hs_summed.specs.Fit.{FitsLoaded};

use hs_ports::Disk;
use hs_quiet::copies_keep_up;
use hs_steady::a_store_in_step_shows_its_lists;

/// Where the book of a load goes on and all is the same, the log of each peer that is not down is in use and ends with what
/// the peer is known to have sealed, so that the last lines are begun, but for want of memory, or where the number of a line
/// would be too great. So it is where the disks tell their contents, no call of one was ahead at entry, and the lists with
/// which the load opened are sound. For any number of shards and copies.
pub fn a_load_begins_its_last_lines<D: Disk>()
    ensures { (name : List ℕ → Address) (shape : Shape) (seed writers files : ℕ) (r : Ran)
        (loaded : IsLoaded D.tells name shape seed writers files r)
        → FitsLoaded D.tells name shape seed writers files r loaded }
{
    copies_keep_up();
    a_store_in_step_shows_its_lists();
}
