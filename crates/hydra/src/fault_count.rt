//! How often a device has failed.
ghost use Rattle.std.specs.Prelude.{◌≡◌, OnOk};
ghost use Rattle.hs_ports.specs.Fault.{IsCausedBy, IsSteady};

use hs_ports::PortFault;

/// A count of faults; at `u64::MAX` it stands still.
#[derive(Drop)]
pub struct FaultCount {
    pub faults: u64,
}

impl FaultCount {
    /// Before the first fault.
    pub fn new() -> FaultCount
        ensures value { result.faults ≡ 0 }
    {
        FaultCount { faults: 0 }
    }

    /// Hands an answer on, and counts it where it is `Failed`.
    pub fn counted<T>(&mut self, answer: Result<T, PortFault>) -> Result<T, PortFault>
        ensures value { result ≡ answer }
        ensures calm { IsSteady self.old.faults self.new.faults result }
        ensures cause { IsCausedBy PortFault.Failed self.old.faults self.new.faults result }
    {
        if let Err(PortFault::Failed) = &answer {
            self.faults = self.faults.saturating_add(1);
        }
        answer
    }
}
