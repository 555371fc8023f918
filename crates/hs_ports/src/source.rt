//! A source of bytes, as the command line reads one.
ghost use Rattle.std.specs.Prelude.{◌<◌, ℕ, List, Option, IfOk, OnErr};
ghost use Rattle.hs_ports.specs.Fault.{IsCausedBy, IsSteady};
ghost use Rattle.hs_ports.specs.Source.{Took, Untaken};

use crate::PortFault;

/// Bytes that come from outside, in order.
pub trait Source {
    /// The bytes that are left, where the source tells them.
    ghost left: { Self → Option (List ℕ) };

    /// How often the source has failed.
    ghost faults: { Self → ℕ };

    /// Appends up to `max` bytes to `into`, and answers how many. 0 is the end of the input.
    /// A take that fails takes nothing.
    fn take(&mut self, max: usize, into: &mut Vec<u8>) -> Result<usize, PortFault>
        requires { 0 < max }
        ensures taken { IfOk result (λ n.
            Took (left self.old) into.old.items (left self.new) into.new.items max n) }
        ensures untaken { OnErr result (
            Untaken (left self.old) into.old.items (left self.new) into.new.items) }
        ensures calm { IsSteady (faults self.old) (faults self.new) result }
        ensures cause { IsCausedBy PortFault.Failed (faults self.old) (faults self.new) result };
}
