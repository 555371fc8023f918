//! What a copy of a root comes to, in the words of the plain store.
ghost use Rattle.std.specs.Prelude.{ℕ, List, Option};
ghost use Rattle.hs_files.specs.Copied.{CopiesRoot, Shapes, in_first, in_second};
ghost use Rattle.hs_kept.specs.Copied.{AreSoundStarts, CopiesPlainly, FirstStays};
ghost use Rattle.hs_kept.specs.Kept.{IsSoundStart, StartsAlike};
ghost use Rattle.hs_limits.specs.declared.address.Address.{Address};
ghost use Rattle.hs_promise.specs.Run.{Ran};
ghost use Rattle.hs_standing.specs.Held.{GivesAddresses};

use hs_clauses::{a_run_is_answered, a_run_may_stop, a_run_stands};
use hs_founded::a_store_of_sound_lists_is_right;
use hs_memory::catalogues_in_memory_are_folds;
use hs_ports::Disk;
use hs_settled::shard_0_is_led_by_lines;
use hs_standing::{a_run_goes_on, a_script_is_answered, each_event_is_told};

/// Where the disks of two stores tell their contents, open alike, and hold bytes and sound lists at
/// entry: behind a copy that is done the key is copied from the first store into the second. One is
/// refused only where the key keeps nothing in the first, or for a block or the root in the second.
pub fn a_root_is_copied<D: Disk>()
    ensures { (name : List ℕ → Address) (shapes : Shapes) (key : List ℕ) (every : Option ℕ) (r : Ran)
        → D.tells → StartsAlike shapes.first (in_first shapes.first r.ending r)
        → StartsAlike shapes.second (in_second shapes.first r.ending r) → GivesAddresses name
        → AreSoundStarts name shapes r → CopiesRoot D.tells name shapes key every r
        → CopiesPlainly D.tells name shapes key r }
{
    a_run_is_answered();
    a_run_stands();
    shard_0_is_led_by_lines();
    each_event_is_told();
    a_script_is_answered();
    catalogues_in_memory_are_folds();
    a_store_of_sound_lists_is_right();
}

/// Where the disks of the first store of a copy tell their contents, open alike, and hold bytes and
/// sound lists at entry: however the copy ends, each root of its opening that a key retains is retained
/// behind what was answered, and all that its address leads to stays with the same blocks. At each
/// moment of it, where its stops are as its lines ask, each key keeps what it kept, whatever images
/// count; with one copy of each shard its stops are so, where it may be stopped.
pub fn a_copied_store_stays<D: Disk>()
    ensures { (name : List ℕ → Address) (shapes : Shapes) (key : List ℕ) (every : Option ℕ) (r : Ran)
        → D.tells → StartsAlike shapes.first (in_first shapes.first r.ending r)
        → GivesAddresses name
        → IsSoundStart name shapes.first (in_first shapes.first r.ending r)
        → CopiesRoot D.tells name shapes key every r → FirstStays D.tells name shapes r }
{
    a_run_is_answered();
    a_run_stands();
    a_run_goes_on();
    a_run_may_stop();
    shard_0_is_led_by_lines();
    each_event_is_told();
    a_script_is_answered();
    catalogues_in_memory_are_folds();
    a_store_of_sound_lists_is_right();
}
