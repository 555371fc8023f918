//! A file that is kept survives what others do.
ghost use Rattle.hs_clauses.specs.Shown.{IsToldRun};
ghost use Rattle.hs_kept.specs.Survives.{OpensSound, SurvivesRun};
ghost use Rattle.hs_promise.specs.Run.{Ran, Script};

use hs_clauses::{a_run_is_answered, a_run_stands};
use hs_founded::a_store_of_sound_lists_is_right;
use hs_memory::catalogues_in_memory_are_folds;
use hs_settled::shard_0_is_led_by_lines;
use hs_standing::{a_script_is_answered, each_event_is_told};

/// In a run over disks that hold bytes and sound lists at entry, with any number of copies of each shard:
/// a file that is stored under a key at entry is so behind what was answered, deletions among it, where no
/// line drops its key.
pub fn a_kept_file_survives()
    ensures { (S : Script) (r : Ran) → IsToldRun S r → OpensSound S r → SurvivesRun S r }
{
    a_run_is_answered();
    a_run_stands();
    shard_0_is_led_by_lines();
    each_event_is_told();
    a_script_is_answered();
    catalogues_in_memory_are_folds();
    a_store_of_sound_lists_is_right();
}
