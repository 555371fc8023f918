//! What each core of a run that is the machine's keeps.
ghost use Rattle.std.specs.Prelude.{◌≡◌, IfSome, Option, ℕ};
ghost use Rattle.hs_model.specs.declared.command.Command.{Command};
ghost use Rattle.hs_promise.specs.Entry.{IsSoundAtEntry};
ghost use Rattle.hs_promise.specs.Run.{Ran, script_of};
ghost use Rattle.hs_run.specs.Machine.{IsOfCluster};
ghost use Rattle.hs_measure.specs.Served.{EachCoreKeeps};
ghost use Rattle.hs_script.specs.CommandLine.{Wanted};

use crate::run::each_core_of_a_run_keeps_the_promise;
use hs_block::Addresser;
use hs_ports::Disk;

/// Of a run that is the machine's, as `hydra` says of the words that it serves, with one copy a shard:
/// over disks that tell their contents, and are sound at entry, each core of it, behind each front of its events, keeps what
/// is promised of answers, deletion and completeness, where the core goes on behind its opening. So its
/// counts and zero blocks are right at each moment: as the plain store says what anchors reach, no zero
/// block is a wrong one, and at a last round each older block of its shard that is out of reach is one.
pub fn each_core_of_the_machines_run_keeps_the_promise<A: Addresser, D: Disk>()
    ensures { (naming : A) (wanted : Wanted) (commands : ℕ → Option Command) (r : Ran)
        → (machine : IsOfCluster D.tells (script_of (A.name naming) wanted commands) r)
        → wanted.shape.copies ≡ 1 → D.tells → IsSoundAtEntry (script_of (A.name naming) wanted commands) r →
        IfSome machine.how (EachCoreKeeps (script_of (A.name naming) wanted commands) r) }
{
    each_core_of_a_run_keeps_the_promise();
}
