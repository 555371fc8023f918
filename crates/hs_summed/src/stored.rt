//! The store that a load leaves which is done.
ghost use Rattle.std.specs.Prelude.{ℕ, List};
ghost use Rattle.hs_limits.specs.declared.address.Address.{Address};
ghost use Rattle.hs_limits.specs.declared.shape.Shape.{Shape};
ghost use Rattle.hs_load.specs.Loaded.{IsLoaded};
ghost use Rattle.hs_promise.specs.Run.{Ran};
ghost use Rattle.hs_summed.specs.Store.{LoadsStore};

use crate::a_load_begins_its_last_lines;
use hs_deeds::a_history_is_its_deeds;
use hs_memory::catalogues_in_memory_are_folds;
use hs_ports::Disk;

/// Where a load is done, whose disks tell their contents, and that opened over sound lists, its journal is one of deeds,
/// from the store at which it opened; the summary that it has put counts the blocks and the retained roots of the store
/// that these leave, and each of these blocks is reached from a retained root. For any number of shards and copies.
pub fn a_done_load_leaves_its_store<D: Disk>()
    ensures { (name : List ℕ → Address) (shape : Shape) (seed writers files : ℕ) (r : Ran)
        → IsLoaded D.tells name shape seed writers files r
        → LoadsStore D.tells name shape seed writers files r }
{
    a_load_begins_its_last_lines::<D>();
    a_history_is_its_deeds();
    catalogues_in_memory_are_folds();
}
