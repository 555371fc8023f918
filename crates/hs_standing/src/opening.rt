//! A store that opens well stands.
ghost use Rattle.hs_events.specs.Found.{Found, first_core};
ghost use Rattle.hs_events.specs.Whole.{open_whole};
ghost use Rattle.hs_standing.specs.Opening.{OpensWell, opened_folds};
ghost use Rattle.hs_standing.specs.Standing.{CoreStands, WholeStands};
ghost use Rattle.hs_standing.specs.Start.{Start};

use hs_told::answers_stay_in_order;

/// Where sound lists open, one of each shard, and their core goes on and stands with their folds, the
/// whole stands: all of the opened lists took effect, and only Views wait, above the views of the lists.
pub fn what_opens_well_stands()
    ensures { (start : Start) (found : Found)
        → OpensWell start found
        → CoreStands start (first_core start.set found) (opened_folds start.set found) →
        WholeStands start (open_whole start.set found) }
{
    answers_stay_in_order();
}
