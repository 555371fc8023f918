//! What is open of a store that a settle left.
ghost use Rattle.std.specs.Prelude.{◌≡◌, List, [], false};
ghost use Rattle.hs_answered.specs.Telling.{Judging};
ghost use Rattle.hs_core_words.specs.Looking.{open_work};
ghost use Rattle.hs_core_words.specs.State.{Core};
ghost use Rattle.hs_fold.specs.Runs.Facts.{Catalogue as Folded};
ghost use Rattle.hs_laws.specs.Valid.{IsValid};
ghost use Rattle.hs_model.specs.Store.{Store};
ghost use Rattle.hs_quiet.specs.Keeping.{AreInStep};
ghost use Rattle.hs_quiet.specs.Settled.{IsLeft};
ghost use Rattle.hs_standing.specs.Legal.{IsStanding};

use hs_deletion::{a_run_goes_on, rounds_run_in_step};
use hs_joint::folds_follow_the_machine;

/// Where a settle left a core that stands (`a_settle_leaves_nothing`), and no operation is without an answer, nothing is
/// open: no shard is in a run of deletion, for then some shard could complete a row of rounds, all of which are kept, or
/// enter; so each has swept the greatest epoch. Premises: each shard's copies are in step with the machine of hs_copies,
/// and the store that the run began with is valid.
pub fn a_quiet_store_has_nothing_open()
    ensures { (by : Judging) (start : Store) (core : Core) (cs : List Folded) → IsValid start → IsStanding by start core cs → AreInStep core → IsLeft core → core.operations ≡ [] → open_work core ≡ false }
{
    folds_follow_the_machine();
    rounds_run_in_step();
    a_run_goes_on();
}
