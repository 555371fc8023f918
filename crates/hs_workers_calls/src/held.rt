//! Disks that wait for each other's first write, and a gate that raises their flags.
use hs_desk::{Gate, Job};
use hs_ports::{Disk, PortFault, Side, Watch};
use std::sync::atomic::{AtomicU64, Ordering};

/// What the gate and two disks share: a flag of each peer, a mark that its disk has begun, and whether each
/// was let through by the mark of the other. 0 is no, 1 yes.
#[derive(Drop)]
pub struct Flags {
    raised_zero: AtomicU64,
    raised_one: AtomicU64,
    begun_zero: AtomicU64,
    begun_one: AtomicU64,
    through_zero: AtomicU64,
    through_one: AtomicU64,
}

impl Flags {
    /// None is raised.
    pub fn new() -> Flags {
        Flags {
            raised_zero: AtomicU64::new(0),
            raised_one: AtomicU64::new(0),
            begun_zero: AtomicU64::new(0),
            begun_one: AtomicU64::new(0),
            through_zero: AtomicU64::new(0),
            through_one: AtomicU64::new(0),
        }
    }

    fn raised(&self, peer: u8) -> &AtomicU64 {
        if peer == 0 {
            &self.raised_zero
        } else {
            &self.raised_one
        }
    }

    fn begun(&self, peer: u8) -> &AtomicU64 {
        if peer == 0 {
            &self.begun_zero
        } else {
            &self.begun_one
        }
    }

    fn through(&self, peer: u8) -> &AtomicU64 {
        if peer == 0 {
            &self.through_zero
        } else {
            &self.through_one
        }
    }

    /// Whether both disks were let through.
    pub fn are_through(&self) -> bool {
        self.through_zero.load(Ordering::SeqCst) != 0
            && self.through_one.load(Ordering::SeqCst) != 0
    }
}

/// A disk that hands every call on, but holds its first write behind its peer's flag until the other disk has
/// begun too, for at most so many turns.
#[derive(Drop)]
pub struct HeldDisk<'a, D> {
    disk: D,
    flags: &'a Flags,
    peer: u8,
    turns: u64,
}

impl<'a, D> HeldDisk<'a, D> {
    /// The disk of a peer, which is 0 or 1.
    pub fn new(disk: D, flags: &'a Flags, peer: u8, turns: u64) -> HeldDisk<'a, D> {
        HeldDisk {
            disk,
            flags,
            peer,
            turns,
        }
    }
}

/// Marks that a disk has begun, and waits for the mark of the other one.
fn hold(flags: &Flags, peer: u8, turns: u64) {
    if flags.raised(peer).load(Ordering::SeqCst) == 0 {
        return;
    }
    if flags.begun(peer).swap(1, Ordering::SeqCst) != 0 {
        return;
    }
    let other = if peer == 0 { 1 } else { 0 };
    for _ in 0..turns {
        if flags.begun(other).load(Ordering::SeqCst) != 0 {
            flags.through(peer).store(1, Ordering::SeqCst);
            return;
        }
    }
}

impl<'a, D: Disk> Disk for HeldDisk<'a, D> {
    ghost tells = { D.tells };

    ghost size = { λ held side. D.size held.disk side };

    ghost stands = { λ held. D.stands held.disk };

    ghost faults = { λ held. D.faults held.disk };

    ghost fits = { λ held side. D.fits held.disk side };

    ghost sized = { λ told held side. D.sized told held.disk side };

    ghost since = { λ told held side m later. D.since told held.disk side m later };

    ghost stays = { λ told held side. D.stays told held.disk side };

    fn len(&mut self, side: Side) -> Result<u64, PortFault> {
        self.disk.len(side)
    }

    fn read(
        &mut self,
        side: Side,
        at: u64,
        max: usize,
        into: &mut Vec<u8>,
    ) -> Result<usize, PortFault> {
        self.disk.read(side, at, max, into)
    }

    fn write_at(
        &mut self,
        watch: &mut Watch,
        side: Side,
        at: u64,
        bytes: &[u8],
    ) -> Result<(), PortFault> {
        hold(self.flags, self.peer, self.turns);
        self.disk.write_at(watch, side, at, bytes)
    }

    fn cut(&mut self, watch: &mut Watch, side: Side, len: u64) -> Result<(), PortFault> {
        self.disk.cut(watch, side, len)
    }

    fn sync(&mut self, watch: &mut Watch, side: Side) -> Result<(), PortFault> {
        self.disk.sync(watch, side)
    }
}

/// A gate that raises a peer's flag before its Appends.
#[derive(Drop)]
pub struct RaisingGate<'a> {
    flags: &'a Flags,
}

impl<'a> RaisingGate<'a> {
    pub fn new(flags: &'a Flags) -> RaisingGate<'a> {
        RaisingGate { flags }
    }
}

impl<'a> Gate for RaisingGate<'a> {
    fn before(&self, peer: u8, job: &Job) {
        if let Job::Append { .. } = job {
            self.flags.raised(peer).store(1, Ordering::SeqCst);
        }
    }

    fn after(&self, _peer: u8, _job: &Job) {}
}
