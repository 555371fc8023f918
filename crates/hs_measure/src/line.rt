//! One line of a cluster.
ghost use Rattle.std.specs.Prelude.{◌≡◌, ◌≤◌, ℕ, ⊤, List, Result, Some};
ghost use Rattle.hs_cluster.specs.Calls.{RunsLine};
ghost use Rattle.hs_cluster.specs.declared.fault.ClusterFault.{ClusterFault};
ghost use Rattle.hs_cluster.specs.Disks.{DiskSeen};
ghost use Rattle.hs_cluster.specs.Kept.{Shows};
ghost use Rattle.hs_cluster.specs.Running.{Running};
ghost use Rattle.hs_standing.specs.Script.{IsNext};
ghost use Rattle.hs_model.specs.declared.command.Command.{Command};
ghost use Rattle.hs_measure.specs.Between.{IsInRun, KeepsOn, Rests};
ghost use Rattle.hs_standing.specs.Start.{Start};

use crate::event::each_event_keeps_the_promise;
use crate::rest::a_settle_leaves_nothing_open;
use hs_clauses::{a_run_reads_on, each_report_tells_its_block};
use hs_ports::Disk;
use hs_settled::each_operation_goes_on;
use hs_standing::{a_line_asks_as_its_command, a_scripts_events_may_come, a_scripts_lines_are_new};
use hs_steady::a_store_goes_on_steadily;
use hs_told::answers_stay_in_order;

/// What `Cluster::run` promises of a line of a cluster in its run (`RunsLine`, with `Shows`), with any number of
/// copies, where the line comes next and is the command's: behind each front of its events what is promised of answers,
/// deletion and completeness is kept, and behind all of them the cluster is in the run, and the next
/// line may come (`keeps`). A `settle` that was gone past has left nothing open (`rests`).
pub fn each_line_keeps_the_promise<D: Disk>()
    ensures keeps { (start : Start) (line : ℕ) (command : Command)
        (since before now : ℕ) (old new : Running) (disks left : List DiskSeen)
        (result : Result ⊤ ClusterFault)
        → D.tells → IsInRun start old disks since → since ≤ before → IsNext start.commands old.core line
        → start.commands line ≡ Some command → old.core.moment ≤ before
        → (runs : RunsLine start.set.name line command before now old new result
        (Shows D.tells (record {
          before = before;
          now = now;
          old = old;
          new = new;
          disks = disks;
          left = left;
        }) result)) →
        KeepsOn start line old.core runs.events result new left now }
    ensures rests { (start : Start) (line : ℕ) (command : Command)
        (since before now : ℕ) (old new : Running) (disks left : List DiskSeen)
        (result : Result ⊤ ClusterFault)
        → D.tells → IsInRun start old disks since → since ≤ before → IsNext start.commands old.core line
        → start.commands line ≡ Some command → old.core.moment ≤ before
        → RunsLine start.set.name line command before now old new result
        (Shows D.tells (record {
          before = before;
          now = now;
          old = old;
          new = new;
          disks = disks;
          left = left;
        }) result) →
        Rests start command result new.core }
{
    each_event_keeps_the_promise();
    a_settle_leaves_nothing_open();
    each_operation_goes_on();
    a_line_asks_as_its_command();
    a_scripts_events_may_come();
    a_scripts_lines_are_new();
    a_run_reads_on();
    each_report_tells_its_block();
    answers_stay_in_order();
    a_store_goes_on_steadily();
}
