//! The summary of a load that is done.
ghost use Rattle.std.specs.Prelude.{◌≡◌, ℕ, List};
ghost use Rattle.hs_limits.specs.declared.address.Address.{Address};
ghost use Rattle.hs_limits.specs.declared.shape.Shape.{Shape};
ghost use Rattle.hs_load.specs.Loaded.{IsLoaded, close_of, handed_of};
ghost use Rattle.hs_promise.specs.declared.status.Status.TheVariants as status;
ghost use Rattle.hs_promise.specs.Run.{Ran};
ghost use Rattle.hs_summed.specs.Summed.{SumsUp};

use hs_ports::Disk;

/// A load that is done has put the summary, whole. Each writer's line tells how many files it rooted by its
/// entries in the journal as it was behind the joins, and how many of these it did not drop; the roots are as many
/// as the files that all kept, and roots and blocks are those of the last core, whose journal is handed back. That
/// journal goes on from there; it has six answers to deletions, and the last two lines that delete run. So it is
/// for any number of shards and copies, whatever the disks had.
pub fn a_done_load_sums_up<D: Disk>()
    ensures { (name : List ℕ → Address) (shape : Shape) (seed writers files : ℕ) (r : Ran)
        → IsLoaded D.tells name shape seed writers files r
        → r.ending ≡ status.Done → SumsUp writers (handed_of r) (close_of r) }
{}
