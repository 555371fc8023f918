//! A run over sound lists.
ghost use Rattle.std.specs.Prelude.{◌≡◌, Contains, List, None, length};
ghost use Rattle.hs_events.specs.Course.{happened, items_of, steps};
ghost use Rattle.hs_events.specs.Due.{Events};
ghost use Rattle.hs_events.specs.Found.{Found, first_core};
ghost use Rattle.hs_events.specs.Whole.{Whole, open_whole};
ghost use Rattle.hs_fold.specs.Shards.Images.{AreGoodImages, Image, Stop};
ghost use Rattle.hs_journal.specs.declared.entry.JournalEntry.{JournalEntry};
ghost use Rattle.hs_journal.specs.Moments.{below};
ghost use Rattle.hs_limits.specs.Shape.{IsShape};
ghost use Rattle.hs_model.specs.declared.course.CourseItem.{CourseItem};
ghost use Rattle.hs_moments.specs.Joint.{AtMoment};
ghost use Rattle.hs_moments.specs.Machine.{runs, state_at};
ghost use Rattle.hs_moments.specs.WholeMachine.{whole_machine};
ghost use Rattle.hs_standing.specs.Run.{IsRunning, MayRun, RunOpens};
ghost use Rattle.hs_standing.specs.Standing.{AllMayKeep, AreBegun, IsStateAt};
ghost use Rattle.hs_standing.specs.Reopens.{Reopens};
ghost use Rattle.hs_standing.specs.Stands.{StandsWhereGood};
ghost use Rattle.hs_standing.specs.Start.{Start};

use hs_answered::{
    a_read_is_the_judges, a_step_that_answers_is_the_judges, a_write_is_the_judges,
    an_answer_is_the_judges, views_show_the_store,
};
use hs_effects::{
    a_delete_is_answered_at_its_effect, a_drop_is_answered_at_its_effect,
    a_got_is_silent_or_a_sweep, a_new_block_is_answered_at_its_effect,
    a_present_block_is_answered_at_its_effect, a_root_is_answered_at_its_effect,
    an_enter_by_itself_is_told, no_line_waits_twice,
};
use hs_memory::catalogues_in_memory_are_folds;
use hs_told::answers_stay_in_order;

/// A run over sound lists, of one copy a shard, is running as it opens (`opens`), when no line was begun
/// (`first`), and behind events that may come, while its core goes on (`goes_on`).
pub fn a_run_goes_on()
    ensures opens { (start : Start) (found : Found)
        → RunOpens start found → IsRunning start (open_whole start.set found) }
    ensures first { (start : Start) (stop : Stop) (found : Found)
        → RunOpens start found → AreBegun start stop (first_core start.set found) }
    ensures goes_on { (start : Start) (c : Whole) (events : Events)
        → IsRunning start c → AllMayKeep start (MayRun start) c.core events
        → (steps c.core events).ended ≡ None →
        IsRunning start (runs whole_machine c events) }
{
    a_step_that_answers_is_the_judges();
    an_answer_is_the_judges();
    a_read_is_the_judges();
    a_write_is_the_judges();
    views_show_the_store();
    a_new_block_is_answered_at_its_effect();
    a_present_block_is_answered_at_its_effect();
    a_root_is_answered_at_its_effect();
    a_drop_is_answered_at_its_effect();
    a_delete_is_answered_at_its_effect();
    an_enter_by_itself_is_told();
    a_got_is_silent_or_a_sweep();
    no_line_waits_twice();
    answers_stay_in_order();
    catalogues_in_memory_are_folds();
}

/// At each moment of events that may come in a run, and whose items its course has: as long as each
/// shard has its good peer, what took effect is what the journal tells, and what waits may be left
/// (`stands`). So whatever images count then reopen (`reopens`).
pub fn each_moment_of_a_run_stands()
    ensures stands { (start : Start) (stop : Stop) (c : Whole) (events : Events)
        → IsRunning start c → AreBegun start stop c.core
        → AllMayKeep start (MayRun start) c.core events
        → ((i : CourseItem) → Contains (items_of c.core events) i → Contains stop.course i) →
        StandsWhereGood whole_machine start stop
        (state_at whole_machine c (happened c.core events) stop.moment) }
    ensures reopens { (start : Start) (stop : Stop) (c : Whole) (events : Events)
        (journal : List JournalEntry) (images : List Image)
        → IsShape start.set.shape → start.set.shape.copies ≡ 1
        → length stop.disks ≡ start.set.shape.shards
        → IsRunning start c → AreBegun start stop c.core
        → AllMayKeep start (MayRun start) c.core events
        → ((i : CourseItem) → Contains (items_of c.core events) i → Contains stop.course i)
        → AtMoment whole_machine
        (IsStateAt (state_at whole_machine c (happened c.core events) stop.moment))
        start.set.shape stop.course journal stop.moment stop.disks
        → AreGoodImages start.set.shape stop images →
        Reopens start stop (below stop.moment journal) images }
{
    a_step_that_answers_is_the_judges();
    an_answer_is_the_judges();
    a_read_is_the_judges();
    a_write_is_the_judges();
    views_show_the_store();
    a_new_block_is_answered_at_its_effect();
    a_present_block_is_answered_at_its_effect();
    a_root_is_answered_at_its_effect();
    a_drop_is_answered_at_its_effect();
    a_delete_is_answered_at_its_effect();
    an_enter_by_itself_is_told();
    a_got_is_silent_or_a_sweep();
    no_line_waits_twice();
    answers_stay_in_order();
    catalogues_in_memory_are_folds();
}
