//! One line of a cluster.
ghost use Rattle.std.specs.Prelude.{◌≡◌, ◌+◌, ◌<◌, ◌^◌, length, map, true, OnOk};
ghost use Rattle.hs_asker.specs.Asked.{core_of};
ghost use Rattle.hs_asker.specs.Going.{RunsAlone, point_of};
ghost use Rattle.hs_cluster.specs.Disks.{seen_as};
ghost use Rattle.hs_events.specs.Commands.{is_served};
ghost use Rattle.hs_run.specs.Between.{IsReadyAt};

use hs_block::Addresser;
use hs_cluster::{Cluster, ClusterFault};
use hs_desk::CoreFault;
use hs_model::Command;
use hs_ports::{Disk, Watch};

/// Begins the next line, and does it.
pub(crate) fn run_line<A: Addresser, D: Disk>(
    cluster: &mut Cluster,
    line: &mut u64,
    naming: &A,
    disks: &mut Vec<D>,
    watch: &mut Watch,
    command: Command,
) -> Result<(), ClusterFault>
    requires served { is_served command ≡ true }
    requires room { line.old + 1 < 2 ^ 64 }
    requires ready { IsReadyAt D.tells (point_of watch.old cluster.old
        (map (λ disk. seen_as (D.size disk) (D.stands disk) (D.faults disk)) disks.old.items) line.old) }
    ensures runs { RunsAlone D.tells (A.name naming.now) command
        (point_of watch.old cluster.old
        (map (λ disk. seen_as (D.size disk) (D.stands disk) (D.faults disk)) disks.old.items) line.old)
        (point_of watch.new cluster.new
        (map (λ disk. seen_as (D.size disk) (D.stands disk) (D.faults disk)) disks.new.items) line.new)
        result }
    ensures ready { OnOk result (IsReadyAt D.tells (point_of watch.new cluster.new
        (map (λ disk. seen_as (D.size disk) (D.stands disk) (D.faults disk)) disks.new.items) line.new)) }
    ensures count { length disks.new.items ≡ length disks.old.items }
    ensures line { line.new ≡ line.old + 1 }
{
    *line += 1;
    cluster.run(naming, disks.as_mut_slice(), watch, *line, command)
}

/// The fault of a core that a cluster has.
pub(crate) fn core_fault(fault: ClusterFault) -> CoreFault
    ensures { result ≡ core_of fault }
{
    match fault {
        ClusterFault::ShardLost { shard } => CoreFault::ShardLost { shard },
        ClusterFault::OpsFull => CoreFault::OpsFull,
        ClusterFault::WrongShape { .. } | ClusterFault::NoMemory => CoreFault::NoMemory,
    }
}
