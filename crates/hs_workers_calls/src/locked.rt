//! Disks that share a lock: each holds it through its writes, so that one alone is at work.
use hs_ports::{Disk, PortFault, Side, Watch};
use std::sync::{Mutex, Wait};

/// A disk that hands every call on, each write under a lock.
#[derive(Drop)]
pub(crate) struct LockedDisk<'a, R, D> {
    disk: D,
    rt: &'a R,
    lock: &'a Mutex<u64>,
}

impl<'a, R, D> LockedDisk<'a, R, D> {
    /// A disk under this lock.
    pub(crate) fn new(disk: D, rt: &'a R, lock: &'a Mutex<u64>) -> LockedDisk<'a, R, D> {
        LockedDisk { disk, rt, lock }
    }
}

impl<'a, R: Wait, D: Disk> Disk for LockedDisk<'a, R, D> {
    ghost tells = { D.tells };

    ghost size = { λ locked side. D.size locked.disk side };

    ghost stands = { λ locked. D.stands locked.disk };

    ghost faults = { λ locked. D.faults locked.disk };

    ghost fits = { λ locked side. D.fits locked.disk side };

    ghost sized = { λ told locked side. D.sized told locked.disk side };

    ghost since = { λ told locked side m later. D.since told locked.disk side m later };

    ghost stays = { λ told locked side. D.stays told locked.disk side };

    fn len(&mut self, side: Side) -> Result<u64, PortFault> {
        self.disk.len(side)
    }

    fn read(
        &mut self,
        side: Side,
        at: u64,
        max: usize,
        into: &mut Vec<u8>,
    ) -> Result<usize, PortFault> {
        self.disk.read(side, at, max, into)
    }

    fn write_at(
        &mut self,
        watch: &mut Watch,
        side: Side,
        at: u64,
        bytes: &[u8],
    ) -> Result<(), PortFault> {
        let _held = self.lock.lock(self.rt);
        self.disk.write_at(watch, side, at, bytes)
    }

    fn cut(&mut self, watch: &mut Watch, side: Side, len: u64) -> Result<(), PortFault> {
        self.disk.cut(watch, side, len)
    }

    fn sync(&mut self, watch: &mut Watch, side: Side) -> Result<(), PortFault> {
        self.disk.sync(watch, side)
    }
}
