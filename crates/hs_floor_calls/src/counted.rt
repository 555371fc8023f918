//! A disk that counts its syncs.
use hs_ports::{Disk, PortFault, Side, Watch};

/// A disk, and how often it was asked to sync.
#[derive(Drop)]
pub(crate) struct Counted<D> {
    disk: D,
    syncs: u64,
}

impl<D: Disk> Counted<D> {
    /// The count begins.
    pub(crate) fn new(disk: D) -> Counted<D> {
        Counted { disk, syncs: 0 }
    }

    /// How often it was asked to sync.
    pub(crate) fn syncs(&self) -> u64 {
        self.syncs
    }
}

impl<D: Disk> Disk for Counted<D> {
    ghost tells = { D.tells };

    ghost size = { λ counted side. D.size counted.disk side };

    ghost stands = { λ counted. D.stands counted.disk };

    ghost faults = { λ counted. D.faults counted.disk };

    ghost fits = { λ counted side. D.fits counted.disk side };

    ghost sized = { λ told counted side. D.sized told counted.disk side };

    ghost since = { λ told counted side m later. D.since told counted.disk side m later };

    ghost stays = { λ told counted side. D.stays told counted.disk side };

    fn len(&mut self, side: Side) -> Result<u64, PortFault> {
        self.disk.len(side)
    }

    fn read(
        &mut self,
        side: Side,
        at: u64,
        max: usize,
        into: &mut Vec<u8>,
    ) -> Result<usize, PortFault> {
        self.disk.read(side, at, max, into)
    }

    fn write_at(
        &mut self,
        watch: &mut Watch,
        side: Side,
        at: u64,
        bytes: &[u8],
    ) -> Result<(), PortFault> {
        self.disk.write_at(watch, side, at, bytes)
    }

    fn cut(&mut self, watch: &mut Watch, side: Side, len: u64) -> Result<(), PortFault> {
        self.disk.cut(watch, side, len)
    }

    fn sync(&mut self, watch: &mut Watch, side: Side) -> Result<(), PortFault> {
        self.syncs = self.syncs.saturating_add(1);
        self.disk.sync(watch, side)
    }
}
