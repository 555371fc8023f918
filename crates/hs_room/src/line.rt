//! One line of a cluster.
ghost use Rattle.std.specs.Prelude.{◌≡◌, ◌+◌, ◌≤◌, ◌⊎◌, ℕ, ⊤, List, Result, Some};
ghost use Rattle.hs_cluster.specs.Calls.{RunsLine};
ghost use Rattle.hs_cluster.specs.declared.fault.ClusterFault.{ClusterFault};
ghost use Rattle.hs_cluster.specs.Disks.{DiskSeen};
ghost use Rattle.hs_cluster.specs.Kept.{Shows};
ghost use Rattle.hs_cluster.specs.Running.{Running};
ghost use Rattle.hs_measure.specs.Between.{IsInRun};
ghost use Rattle.hs_model.specs.declared.command.Command.{Command};
ghost use Rattle.hs_promise.specs.Completes.{entries_most};
ghost use Rattle.hs_room.specs.Room.{EndsWell, IsSoFar, KeepsRoom, starts_in};
ghost use Rattle.hs_standing.specs.Script.{IsNext};
ghost use Rattle.hs_standing.specs.Start.{Start};

use crate::journal::a_journal_has_room;
use hs_clauses::{
    a_run_reads_on, each_block_is_of_an_entry, each_report_tells_its_block, what_is_read_is_sealed,
};
use hs_ports::Disk;
use hs_standing::{a_line_asks_as_its_command, a_scripts_events_may_come, a_scripts_lines_are_new};
use hs_steady::a_store_goes_on_steadily;

/// What `Cluster::run` promises of a line of a cluster in its run (`RunsLine`, with `Shows`), with any number of
/// copies, whose core is that of the run so far, where the line comes next and is the command's: behind each
/// front of its events the journal has at most so many entries as the lines up to the last one have room for,
/// with one more for each `start` line that was not refused, and the core that the call leaves is that of the
/// run so far (`keeps`). Where the journal's limit has room for the lines up to this one, and with several
/// copies for so many starts, the cluster goes on, or memory ran out, or a shard is lost with its cause (`ends`).
pub fn each_line_has_room<D: Disk>()
    ensures keeps { (start : Start) (line : ℕ) (command : Command) (starts : ℕ)
        (since before now : ℕ) (old new : Running) (disks left : List DiskSeen)
        (result : Result ⊤ ClusterFault)
        → D.tells → IsInRun start old disks since → since ≤ before → IsSoFar start starts old.core
        → IsNext start.commands old.core line
        → start.commands line ≡ Some command → old.core.moment ≤ before
        → (runs : RunsLine start.set.name line command before now old new result
        (Shows D.tells (record {
          before = before;
          now = now;
          old = old;
          new = new;
          disks = disks;
          left = left;
        }) result)) →
        KeepsRoom start starts old.core runs.events result new }
    ensures ends { (start : Start) (line : ℕ) (command : Command) (starts : ℕ)
        (since before now : ℕ) (old new : Running) (disks left : List DiskSeen)
        (result : Result ⊤ ClusterFault)
        → D.tells → IsInRun start old disks since → since ≤ before → IsSoFar start starts old.core
        → IsNext start.commands old.core line
        → start.commands line ≡ Some command → old.core.moment ≤ before
        → (runs : RunsLine start.set.name line command before now old new result
        (Shows D.tells (record {
          before = before;
          now = now;
          old = old;
          new = new;
          disks = disks;
          left = left;
        }) result))
        → (more : ℕ)
        → (start.set.shape.copies ≡ 1) ⊎ (starts + starts_in old.core runs.events ≤ more)
        → entries_most start.commands start.set.shape line + more ≤ start.set.limits.ops →
        EndsWell start.set.shape (record {
          asked = Some command;
          old = disks;
          new = left;
        }) result }
{
    a_journal_has_room();
    a_run_reads_on();
    each_report_tells_its_block();
    each_block_is_of_an_entry();
    what_is_read_is_sealed();
    a_line_asks_as_its_command();
    a_scripts_events_may_come();
    a_scripts_lines_are_new();
    a_store_goes_on_steadily();
}
