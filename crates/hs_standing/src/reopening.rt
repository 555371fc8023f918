//! What a stop leaves reopens.
ghost use Rattle.std.specs.Prelude.{◌≡◌, List, length};
ghost use Rattle.hs_events.specs.Whole.{Whole};
ghost use Rattle.hs_fold.specs.Shards.Images.{AreGoodImages, Image, Stop};
ghost use Rattle.hs_journal.specs.declared.entry.JournalEntry.{JournalEntry};
ghost use Rattle.hs_journal.specs.Moments.{below};
ghost use Rattle.hs_limits.specs.Shape.{IsShape};
ghost use Rattle.hs_moments.specs.Joint.{AtMoment};
ghost use Rattle.hs_moments.specs.WholeMachine.{whole_machine};
ghost use Rattle.hs_standing.specs.Standing.{AreBegun, IsStateAt, WholeStands};
ghost use Rattle.hs_standing.specs.Reopens.{Reopens};
ghost use Rattle.hs_standing.specs.Start.{Start};

use hs_effects::no_line_waits_twice;

/// At a moment of a run of which the state's whole stands, whatever images count then open at the store
/// behind what was answered below the moment and then what is pending in them.
pub fn what_stands_reopens()
    ensures { (start : Start) (stop : Stop) (journal : List JournalEntry) (images : List Image)
        (c : Whole)
        → IsShape start.set.shape → start.set.shape.copies ≡ 1
        → length stop.disks ≡ start.set.shape.shards
        → AtMoment whole_machine (IsStateAt c) start.set.shape
        stop.course journal stop.moment stop.disks
        → WholeStands start c → AreBegun start stop c.core
        → AreGoodImages start.set.shape stop images →
        Reopens start stop (below stop.moment journal) images }
{
    no_line_waits_twice();
}
