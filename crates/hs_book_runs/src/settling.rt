//! A cluster that goes on from what workers of a book left.
ghost use Rattle.std.specs.Prelude.{◌≡◌, ◌*◌, ◌<◌, ◌≤◌, ◌^◌, None, length, map, true, vec_len};
ghost use Rattle.hs_cluster.specs.Resuming.{EndAsSealed};
ghost use Rattle.hs_taking.specs.Disks.{AreReady, seen_as};

use crate::fault::RunFault;
use crate::stand::Stand;
use hs_block::ShaNames;
use hs_cluster::{Cluster, ClusterFault};
use hs_core::Core;
use hs_load::are_fit;
use hs_model::Command;
use hs_peerlog::PeerLog;
use hs_ports::{Disk, Watch};
use std::alloc::Global;

/// The most lines that may have been begun.
const MOST_LINES: u64 = 4_611_686_018_427_387_904;

/// Whether a cluster can go on from a core and these logs, over so many disks, at a moment.
fn can_resume(core: &Core, logs: &[Option<PeerLog>], disks: usize, now: u64) -> bool
    ensures going { result ≡ true → core.now.ended ≡ None }
    ensures lasts { result ≡ true → EndAsSealed core.now logs.now }
    ensures logs { result ≡ true → length logs.now
        ≡ core.now.members.shape.shards * core.now.members.shape.copies }
    ensures disks { result ≡ true → disks
        ≡ core.now.members.shape.shards * core.now.members.shape.copies }
    ensures moment { result ≡ true → core.now.moment ≤ now }
    ensures room { result ≡ true → core.now.progress.last_line < 2 ^ 62 }
{
    let shape = core.shape();
    let peers = usize::from(shape.shards * shape.copies);
    if core.ended().is_some() || logs.len() != peers || disks != peers {
        return false;
    }
    if now < core.last_moment() || core.last_line() >= MOST_LINES {
        return false;
    }
    are_fit(core, logs)
}

/// Lets a cluster settle over the disks of a vector, as a line of a number.
fn settle<D: Disk>(
    cluster: &mut Cluster,
    disks: &mut Vec<D>,
    watch: &mut Watch,
    line: u64,
) -> Result<(), ClusterFault>
    requires line { cluster.old.core.progress.last_line < line }
    requires moment { cluster.old.core.moment ≤ watch.old }
    requires count { vec_len disks.old
        ≡ cluster.old.core.members.shape.shards * cluster.old.core.members.shape.copies }
    requires ready { AreReady D.tells cluster.old.logs
        (map (λ disk. seen_as (D.size disk) (D.stands disk) (D.faults disk)) disks.old.items) }
{
    cluster.run(
        &ShaNames,
        disks.as_mut_slice(),
        watch,
        line,
        Command::Settle,
    )
}

/// Resumes the cluster of a core with the logs of its peers, where that can go on, and lets it settle: the
/// core that it comes to.
pub(crate) fn settled<D: Disk + Drop>(
    alloc: Global,
    core: Core,
    stand: Stand<D>,
) -> Result<Core, RunFault> {
    let Stand {
        logs,
        mut disks,
        mut watch,
    } = stand;
    if !can_resume(&core, logs.as_slice(), disks.len(), watch.now()) {
        return Err(RunFault::Unfit);
    }
    let line = core.last_line() + 1;
    let mut cluster = Cluster::resume(alloc, core, logs);
    settle(&mut cluster, &mut disks, &mut watch, line)?;
    let (core, _logs) = cluster.into_parts();
    Ok(core)
}
