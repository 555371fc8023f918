//! A whole that stands may stop.
ghost use Rattle.hs_events.specs.Whole.{Whole};
ghost use Rattle.hs_fold.specs.Shards.Images.{Stop};
ghost use Rattle.hs_moments.specs.WholeMachine.{whole_machine};
ghost use Rattle.hs_standing.specs.Standing.{AreBegun, WholeStands};
ghost use Rattle.hs_standing.specs.Stands.{Stands};
ghost use Rattle.hs_standing.specs.Start.{Start};

use hs_effects::no_line_waits_twice;

/// Where a whole stands between two events, and each client's line up to the last one was begun below
/// the moment of a stop, all is so that a stop may leave any fronts of its lists: what took effect is
/// what the journal tells, and what waits has what it rests on, is awaited, and of no line twice.
pub fn what_stands_may_stop()
    ensures { (start : Start) (stop : Stop) (c : Whole)
        → WholeStands start c → AreBegun start stop c.core → Stands whole_machine start stop c }
{
    no_line_waits_twice();
}
