//! The last deletions.
ghost use Rattle.std.specs.Prelude.{◌≡◌, ◌*◌, ◌+◌, ◌<◌, ◌≤◌, ◌^◌, ℕ, None, OnOk, false, length, map, true};
ghost use Rattle.hs_book.specs.History.{NobodyJoins};
ghost use Rattle.hs_events.specs.Commands.{is_served};
ghost use Rattle.hs_load.specs.Loaded.{RunsAll, RunsNext, last_lines, starts_one};
ghost use Rattle.hs_run.specs.Between.{IsReadyAt};
ghost use Rattle.hs_taking.specs.Disks.{seen_as};

use hs_block::Addresser;
use hs_cluster::{Cluster, ClusterFault};
use hs_model::{Command, Op};
use hs_ports::{Disk, Watch};

/// Begins the next line, and does it.
fn run_line<A: Addresser, D: Disk>(
    cluster: &mut Cluster,
    naming: &A,
    disks: &mut [D],
    watch: &mut Watch,
    line: u64,
    command: Command,
) -> Result<(), ClusterFault>
    requires served { is_served command ≡ true }
    requires starts { starts_one command ≡ false }
    requires room { line < 2 ^ 63 }
    requires calm { NobodyJoins cluster.old.core }
    requires ready { IsReadyAt D.tells (record {
      now = watch.old;
      cluster = cluster.old;
      disks = map (λ disk. seen_as (D.size disk) (D.stands disk) (D.faults disk)) disks.old;
      got = None;
      line = line;
    }) }
    ensures runs { RunsNext D.tells (A.name naming.now) command (record {
      now = watch.old;
      cluster = cluster.old;
      disks = map (λ disk. seen_as (D.size disk) (D.stands disk) (D.faults disk)) disks.old;
      line = line;
    }) (record {
      now = watch.new;
      cluster = cluster.new;
      disks = map (λ disk. seen_as (D.size disk) (D.stands disk) (D.faults disk)) disks.new;
      line = line + 1;
    }) result }
    ensures ready { OnOk result (IsReadyAt D.tells (record {
      now = watch.new;
      cluster = cluster.new;
      disks = map (λ disk. seen_as (D.size disk) (D.stands disk) (D.faults disk)) disks.new;
      got = None;
      line = line + 1;
    })) }
    ensures calm { OnOk result (NobodyJoins cluster.new.core) }
    ensures count { length disks.new ≡ length disks.old }
    ensures ticks { watch.old ≤ watch.new }
{
    cluster.run(naming, disks, watch, line + 1, command)
}

/// Lets what waits get done, deletes, and once more, and lets what waits get done.
pub(crate) fn finish<A: Addresser, D: Disk>(
    cluster: &mut Cluster,
    naming: &A,
    disks: &mut [D],
    watch: &mut Watch,
    line: u64,
) -> Result<(), ClusterFault>
    requires room { line < 2 ^ 62 }
    requires calm { NobodyJoins cluster.old.core }
    requires ready { IsReadyAt D.tells (record {
      now = watch.old;
      cluster = cluster.old;
      disks = map (λ disk. seen_as (D.size disk) (D.stands disk) (D.faults disk)) disks.old;
      got = None;
      line = line;
    }) }
    ensures runs { (behind : ℕ) × RunsAll D.tells (A.name naming.now) last_lines (record {
      now = watch.old;
      cluster = cluster.old;
      disks = map (λ disk. seen_as (D.size disk) (D.stands disk) (D.faults disk)) disks.old;
      line = line;
    }) (record {
      now = watch.new;
      cluster = cluster.new;
      disks = map (λ disk. seen_as (D.size disk) (D.stands disk) (D.faults disk)) disks.new;
      line = behind;
    }) result }
    ensures count { length disks.new ≡ length disks.old }
    ensures ticks { watch.old ≤ watch.new }
{
    match run_line(cluster, naming, disks, watch, line, Command::Settle) {
        Ok(()) => {}
        Err(fault) => return Err(fault),
    }
    let second = line + 1;
    let delete = Command::Client(Op::Delete);
    match run_line(cluster, naming, disks, watch, second, delete) {
        Ok(()) => {}
        Err(fault) => return Err(fault),
    }
    let third = second + 1;
    match run_line(cluster, naming, disks, watch, third, Command::Settle) {
        Ok(()) => {}
        Err(fault) => return Err(fault),
    }
    let fourth = third + 1;
    let delete = Command::Client(Op::Delete);
    match run_line(cluster, naming, disks, watch, fourth, delete) {
        Ok(()) => {}
        Err(fault) => return Err(fault),
    }
    let fifth = fourth + 1;
    run_line(cluster, naming, disks, watch, fifth, Command::Settle)
}
