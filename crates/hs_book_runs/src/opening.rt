//! A cluster over its disks, in its parts.
ghost use Rattle.std.specs.Prelude.{◌≡◌, ◌*◌, IfOk, OnOk, map, vec_len};
ghost use Rattle.hs_limits.specs.Shape.{IsShape};
ghost use Rattle.hs_taking.specs.Disks.{AreReady, seen_as};

use crate::fault::RunFault;
use crate::stand::Stand;
use hs_block::ShaNames;
use hs_cluster::{Cluster, ClusterFault, Opened};
use hs_core::Core;
use hs_limits::{Limits, Shape};
use hs_ports::{Disk, Watch};
use std::alloc::Global;

/// Opens a cluster over the disks of a vector.
fn open_all<D: Disk>(
    alloc: Global,
    shape: Shape,
    disks: &mut Vec<D>,
    watch: &mut Watch,
) -> Result<Opened, ClusterFault>
    requires shape { IsShape shape }
    requires count { vec_len disks.old ≡ shape.shards * shape.copies }
    ensures ready { IfOk result (λ opened. OnOk opened.done (AreReady D.tells opened.cluster.logs
        (map (λ disk. seen_as (D.size disk) (D.stands disk) (D.faults disk)) disks.new.items))) }
{
    Cluster::open(
        alloc,
        shape,
        Limits::greatest(),
        &ShaNames,
        disks.as_mut_slice(),
        watch,
    )
}

/// Opens a cluster over some disks, one for each peer, and takes it apart.
pub(crate) fn opened<D: Disk + Drop>(
    alloc: Global,
    shape: Shape,
    disks: Vec<D>,
) -> Result<(Core, Stand<D>), RunFault>
    requires shape { IsShape shape }
    requires count { vec_len disks ≡ shape.shards * shape.copies }
{
    let mut disks = disks;
    let mut watch = Watch::new();
    let Opened { cluster, done } = open_all(alloc, shape, &mut disks, &mut watch)?;
    done?;
    let (core, logs) = cluster.into_parts();
    if logs.len() != disks.len() {
        return Err(RunFault::Unfit);
    }
    Ok((core, Stand { logs, disks, watch }))
}
