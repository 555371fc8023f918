//! A run may stop at each moment.
ghost use Rattle.hs_clauses.specs.Shown.{IsShownRun};
ghost use Rattle.hs_clauses.specs.Stopped.{IsShownByMoments, KeepsCopies};
ghost use Rattle.hs_promise.specs.Entry.{MayStop, entry_store};
ghost use Rattle.hs_promise.specs.Headers.{KeepsHeaders};
ghost use Rattle.hs_promise.specs.Run.{Ran, Script};
ghost use Rattle.hs_promise.specs.Stops.{Stops};

use crate::each_report_tells_its_block;
use hs_memory::catalogues_in_memory_are_folds;
use hs_standing::{
    a_line_asks_as_its_command, a_run_goes_on, a_scripts_events_may_come, a_scripts_lines_are_new,
    each_moment_of_a_run_stands,
};
use hs_tails::each_moment_of_copies_reopens;
use hs_told::answers_stay_in_order;

/// At each moment of a run on sound disks, with one copy of each shard: the images of good peers are
/// logs, and whatever images count open at the store behind what was answered and then what is pending.
/// So it is also of a run whose core ended with its opening, and of one that opened none. That a stop
/// leaves the headers of the peers is shown of any run beside this.
pub fn a_run_may_stop()
    ensures { (S : Script) (r : Ran)
        → IsShownRun S r → KeepsHeaders S r → MayStop S r → Stops S (entry_store S r) r }
{
    catalogues_in_memory_are_folds();
    each_report_tells_its_block();
    a_line_asks_as_its_command();
    a_scripts_events_may_come();
    a_scripts_lines_are_new();
    a_run_goes_on();
    each_moment_of_a_run_stands();
    answers_stay_in_order();
}

/// With any number of copies so it is at each moment of a run on sound disks, while it opens and behind that, where no
/// shard that has no good peer any more has one again: of whatever images count the list of greatest rank of each shard
/// is taken, whichever peer has it. A disk whose peer opening set aside counts as blank until that is good. Where memory
/// was wanting before any log was taken, or the journal is too small for a note of each peer, nothing is said.
pub fn a_run_of_copies_may_stop()
    ensures { (S : Script) (r : Ran)
        → IsShownByMoments S r → KeepsHeaders S r → MayStop S r → KeepsCopies S r
        → Stops S (entry_store S r) r }
{
    catalogues_in_memory_are_folds();
    each_report_tells_its_block();
    a_line_asks_as_its_command();
    a_scripts_events_may_come();
    a_scripts_lines_are_new();
    each_moment_of_copies_reopens();
    answers_stay_in_order();
}
