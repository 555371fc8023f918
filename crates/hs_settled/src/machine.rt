//! What the counts of a core are worth.
ghost use Rattle.std.specs.Prelude.{◌<◌, List};
ghost use Rattle.hs_answered.specs.Telling.{Judging};
ghost use Rattle.hs_core_words.specs.Looking.{shape_of};
ghost use Rattle.hs_core_words.specs.State.{Core};
ghost use Rattle.hs_settled.specs.Machine.{FollowsMachine};
ghost use Rattle.hs_effects.specs.Taking.{setting_of};
ghost use Rattle.hs_fold.specs.Runs.Facts.{Catalogue as Folded};
ghost use Rattle.hs_standing.specs.Legal.{IsStanding};
ghost use Rattle.hs_model.specs.Store.{Store};

use hs_deletion::{
    counts_of_catalogues_are_right, each_unreached_block_is_found, no_reached_block_is_a_wrong_zero,
};
use hs_joint::folds_follow_the_machine;

/// The folds of a core that stands follow a machine of deletion that a lawful history makes: each
/// count is how often its address is named in all folds, but for what is on its way; a zero block
/// that the run of its shard's epoch reaches was given in that epoch; and where a shard completes
/// the last round of a run, each of its blocks that is older and out of reach is a zero block.
pub fn a_core_counts_right()
    ensures { (by : Judging) (start : Store) (core : Core) (cs : List Folded)
        (some : 0 < (shape_of core).shards)
        → IsStanding by start core cs → FollowsMachine (setting_of by.name core) some cs }
{
    folds_follow_the_machine();
    counts_of_catalogues_are_right();
    no_reached_block_is_a_wrong_zero();
    each_unreached_block_is_found();
}
