//! What a file comes to in a store, in the words of the plain store.
ghost use Rattle.std.specs.Prelude.{ℕ, List};
ghost use Rattle.hs_files.specs.Fetched.{FetchesFile};
ghost use Rattle.hs_files.specs.Stored.{StoresFile};
ghost use Rattle.hs_kept.specs.Kept.{FetchesPlainly, IsSoundStart, StartsAlike, StoresPlainly};
ghost use Rattle.hs_limits.specs.declared.address.Address.{Address};
ghost use Rattle.hs_limits.specs.declared.shape.Shape.{Shape};
ghost use Rattle.hs_promise.specs.Run.{Ran};
ghost use Rattle.hs_standing.specs.Held.{GivesAddresses};

use hs_clauses::{a_run_is_answered, a_run_stands};
use hs_founded::a_store_of_sound_lists_is_right;
use hs_memory::catalogues_in_memory_are_folds;
use hs_ports::Disk;
use hs_settled::shard_0_is_led_by_lines;
use hs_standing::{a_script_is_answered, each_event_is_told};

/// Where the disks tell their contents, open alike, and hold bytes and sound lists at entry: a store
/// that is done keeps its file under the key, with each block of its tree, and one that is refused,
/// can't read its source, or was given too much leaves each root as it was (`store`). A fetch that is
/// done has put the file of the key, and one that tells of no file comes of a key that keeps none
/// (`fetch`).
pub fn a_file_is_kept<D: Disk>()
    ensures store { (name : List ℕ → Address) (shape : Shape) (key : List ℕ) (r : Ran)
        → D.tells → StartsAlike shape r → GivesAddresses name → IsSoundStart name shape r
        → StoresFile D.tells name shape key r → StoresPlainly D.tells name shape key r }
    ensures fetch { (name : List ℕ → Address) (shape : Shape) (key : List ℕ) (r : Ran)
        → D.tells → StartsAlike shape r → GivesAddresses name → IsSoundStart name shape r
        → FetchesFile D.tells name shape key r → FetchesPlainly D.tells name shape key r }
{
    a_run_is_answered();
    a_run_stands();
    shard_0_is_led_by_lines();
    each_event_is_told();
    a_script_is_answered();
    catalogues_in_memory_are_folds();
    a_store_of_sound_lists_is_right();
}
