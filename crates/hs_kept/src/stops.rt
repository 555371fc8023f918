//! What becomes of a key while a file is stored under it.
ghost use Rattle.std.specs.Prelude.{List, ℕ};
ghost use Rattle.hs_files.specs.Stored.{StoresFile};
ghost use Rattle.hs_kept.specs.Kept.{IsSoundStart, StartsAlike};
ghost use Rattle.hs_kept.specs.Stopped.{EndsWhole};
ghost use Rattle.hs_limits.specs.declared.address.Address.{Address};
ghost use Rattle.hs_limits.specs.declared.shape.Shape.{Shape};
ghost use Rattle.hs_promise.specs.Run.{Ran};
ghost use Rattle.hs_standing.specs.Held.{GivesAddresses};

use hs_clauses::{a_run_is_answered, a_run_may_stop, a_run_stands};
use hs_founded::a_store_of_sound_lists_is_right;
use hs_memory::catalogues_in_memory_are_folds;
use hs_ports::Disk;
use hs_settled::shard_0_is_led_by_lines;
use hs_standing::{a_run_goes_on, a_script_is_answered, each_event_is_told};

/// Where the disks tell their contents, open alike, and hold bytes and sound lists at entry: however a
/// store ends, its key keeps what it kept, or the whole file of what was taken, in the store behind
/// what was answered. Where its core goes on behind its opening, and its stops are as its lines ask, so
/// it does in that at which whatever images open that count at a moment of its run; with one copy of
/// each shard its stops are so, where it may be stopped.
pub fn a_key_is_kept_whole<D: Disk>()
    ensures { (name : List ℕ → Address) (shape : Shape) (key : List ℕ) (r : Ran)
        → D.tells → StartsAlike shape r → GivesAddresses name → IsSoundStart name shape r
        → StoresFile D.tells name shape key r → EndsWhole D.tells name shape key r }
{
    a_run_is_answered();
    a_run_stands();
    a_run_goes_on();
    a_run_may_stop();
    shard_0_is_led_by_lines();
    each_event_is_told();
    a_script_is_answered();
    catalogues_in_memory_are_folds();
    a_store_of_sound_lists_is_right();
}
