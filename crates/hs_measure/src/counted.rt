//! That reads which fail are counted.
ghost use Rattle.std.specs.Prelude.{◌≡◌, IfSome, Option, ℕ};
ghost use Rattle.hs_measure.specs.Counted.{CountsAllFailures};
ghost use Rattle.hs_model.specs.declared.command.Command.{Command};
ghost use Rattle.hs_promise.specs.Run.{Ran, script_of};
ghost use Rattle.hs_run.specs.Machine.{IsOfCluster};
ghost use Rattle.hs_script.specs.CommandLine.{Wanted};

use hs_block::Addresser;
use hs_clauses::what_is_read_is_sealed;
use hs_ports::Disk;

/// Of a run that is the machine's, as `hydra` says of the words that it serves, with one copy a shard:
/// over disks that tell their contents, whatever lists they have, sound or not, the count of each disk rose by all failed
/// calls that its reports tell, those of reads too, and by its loss before the core was opened, where
/// its log was the taken one.
pub fn reads_that_fail_are_counted<A: Addresser, D: Disk>()
    ensures { (naming : A) (wanted : Wanted) (commands : ℕ → Option Command) (r : Ran)
        → (machine : IsOfCluster D.tells (script_of (A.name naming) wanted commands) r)
        → wanted.shape.copies ≡ 1 → D.tells →
        IfSome machine.how (CountsAllFailures (script_of (A.name naming) wanted commands) r) }
{
    what_is_read_is_sealed();
}
