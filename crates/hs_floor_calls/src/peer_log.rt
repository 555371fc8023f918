//! A peer's list: what an entry costs, and a list that is emptied or cleared.
use crate::counted::Counted;
use hs_entry::Entry;
use hs_limits::Shape;
use hs_peerlog::{LogFault, PeerLog};
use hs_ports::{Disk, MemoryDisk, Watch};
use std::alloc::Global;
use std::test::Fail;

const SHAPE: Shape = Shape {
    shards: 1,
    copies: 2,
};

/// A blank disk in memory.
fn blank(alloc: Global) -> Counted<MemoryDisk> {
    let empty = Vec::new(alloc);
    Counted::new(MemoryDisk::new(alloc, empty, Vec::new(alloc), Vec::new(alloc)))
}

/// A View is appended to the list of a disk and sealed, and then the list is emptied. How often the
/// first two sync the disk, and the number of the last entry of the empty list.
fn syncs_and_last<D: Disk>(
    alloc: Global,
    disk: &mut Counted<D>,
    watch: &mut Watch,
) -> Result<(u64, u64, u64), LogFault> {
    let mut log = PeerLog::recover(alloc, disk, watch, SHAPE, 1)?;
    let Some(number) = log.last().checked_add(1) else {
        return Err(LogFault::NoMemory);
    };
    let before = disk.syncs();
    log.append(disk, watch, number, &Entry::View { view: 1 })?;
    let between = disk.syncs();
    log.seal(disk, watch)?;
    let behind = disk.syncs();
    log.reset(disk, watch)?;
    Ok((
        between.saturating_sub(before),
        behind.saturating_sub(between),
        log.last(),
    ))
}

/// The same on a blank disk in memory.
fn told_of_an_entry(alloc: Global) -> Result<(u64, u64, u64), LogFault> {
    let mut disk = blank(alloc);
    syncs_and_last(alloc, &mut disk, &mut Watch::new())
}

/// The number of the last entry of a disk that is cleared.
fn last_of_cleared<D: Disk>(
    alloc: Global,
    disk: &mut D,
    watch: &mut Watch,
) -> Result<u64, LogFault> {
    let log = PeerLog::clear(alloc, disk, watch, SHAPE, 1)?;
    Ok(log.last())
}

/// The same of a blank disk in memory.
fn told_of_clearing(alloc: Global) -> Result<u64, LogFault> {
    let mut disk = blank(alloc);
    last_of_cleared(alloc, &mut disk, &mut Watch::new())
}

#[test]
fn a_seal_syncs_twice_and_an_append_does_not(rt: HostRuntime) -> Result<(), Fail> {
    assert_eq!(rt; told_of_an_entry(rt.alloc())?, (0, 2, 0));
    Ok(())
}

#[test]
fn a_disk_is_cleared(rt: HostRuntime) -> Result<(), Fail> {
    assert_eq!(rt; told_of_clearing(rt.alloc())?, 0);
    Ok(())
}
