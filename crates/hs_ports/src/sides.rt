//! Both sides of a disk in memory.
ghost use Rattle.std.specs.Prelude.{length, ◌<◌, ◌^◌};
ghost use Rattle.hs_ports.specs.Platter.{seen_of};

use crate::change::Deed;
use crate::platter::Platter;
use crate::{PortFault, Side};
use std::alloc::Global;

/// The two sides. The length of each fits a u64.
#[derive(Drop)]
pub struct Sides {
    pub zero: Platter,
    pub one: Platter,
    ghost zero_fits: { length (seen_of zero) < 2 ^ 64 },
    ghost one_fits: { length (seen_of one) < 2 ^ 64 },
}

impl Sides {
    ghost use Rattle.std.specs.Prelude.{◌≡◌, [], IsTrue, OnOk, OnErr, IfErr};
    ghost use Rattle.hs_ports.specs.MemoryDisk.{IsFresh};
    ghost use Rattle.hs_ports.specs.Sides.{standing_of, track_at, Acts};

    /// Sides with these bytes, before the first call. It takes no memory.
    #[tactic(auto, using(crate::proofs::SidesLemmas::fresh_of))]
    pub fn new(alloc: Global, zero: Vec<u8>, one: Vec<u8>) -> Sides
        ensures { IsFresh zero.items one.items (standing_of result.zero result.one) }
    {
        let zero = Platter::new(alloc, zero);
        zero.fits();
        let one = Platter::new(alloc, one);
        one.fits();
        Sides { zero, one }
    }

    /// A side.
    pub fn at(&self, side: Side) -> &Platter
        ensures { result.now ≡ track_at self.now.zero self.now.one side }
    {
        match side {
            Side::Zero => &self.zero,
            Side::One => &self.one,
        }
    }

    /// Writes to a side at a moment, or tells that it failed.
    #[tactic(auto, using(crate::proofs::SidesLemmas::on_zero, crate::proofs::SidesLemmas::on_one))]
    pub fn write(
        &mut self,
        refused: bool,
        side: Side,
        moment: u64,
        at: u64,
        bytes: &[u8],
    ) -> Result<(), PortFault>
        ensures ok { OnOk result (Acts side moment (Deed.Wrote at bytes.now)
            (standing_of self.old.zero self.old.one) (standing_of self.new.zero self.new.one)) }
        ensures err { OnErr result (Acts side moment (Deed.WriteFailed at (length bytes.now))
            (standing_of self.old.zero self.old.one) (standing_of self.new.zero self.new.one)) }
        ensures refused { IsTrue refused → result ≡ Err PortFault.Failed }
        ensures not_memory { IfErr result (λ fault. fault ≡ PortFault.Failed) }
    {
        match side {
            Side::Zero => self.zero.write_or_fail(refused, moment, at, bytes),
            Side::One => self.one.write_or_fail(refused, moment, at, bytes),
        }
    }

    /// Cuts a side at a moment, or tells that it failed.
    #[tactic(auto, using(crate::proofs::SidesLemmas::on_zero, crate::proofs::SidesLemmas::on_one))]
    pub fn cut(&mut self, refused: bool, side: Side, moment: u64, len: u64) -> Result<(), PortFault>
        ensures ok { OnOk result (Acts side moment (Deed.Cut len)
            (standing_of self.old.zero self.old.one) (standing_of self.new.zero self.new.one)) }
        ensures err { OnErr result (Acts side moment (Deed.CutFailed len)
            (standing_of self.old.zero self.old.one) (standing_of self.new.zero self.new.one)) }
        ensures refused { IsTrue refused → result ≡ Err PortFault.Failed }
        ensures not_memory { IfErr result (λ fault. fault ≡ PortFault.Failed) }
    {
        match side {
            Side::Zero => self.zero.cut_or_fail(refused, moment, len),
            Side::One => self.one.cut_or_fail(refused, moment, len),
        }
    }

    /// Syncs a side at a moment, or tells that it failed.
    #[tactic(auto, using(crate::proofs::SidesLemmas::on_zero, crate::proofs::SidesLemmas::on_one))]
    pub fn sync(&mut self, refused: bool, side: Side, moment: u64) -> Result<(), PortFault>
        ensures ok { OnOk result (Acts side moment Deed.Synced
            (standing_of self.old.zero self.old.one) (standing_of self.new.zero self.new.one)) }
        ensures err { OnErr result (Acts side moment Deed.SyncFailed
            (standing_of self.old.zero self.old.one) (standing_of self.new.zero self.new.one)) }
        ensures refused { IsTrue refused → result ≡ Err PortFault.Failed }
        ensures not_memory { IfErr result (λ fault. fault ≡ PortFault.Failed) }
    {
        match side {
            Side::Zero => self.zero.sync_or_fail(refused, moment),
            Side::One => self.one.sync_or_fail(refused, moment),
        }
    }
}
