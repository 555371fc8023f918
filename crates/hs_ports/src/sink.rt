//! A sink of bytes, as the command line writes to one.
ghost use Rattle.std.specs.Prelude.{◌≡◌, ℕ, List, Option, IfOk, IfErr, OnErr};
ghost use Rattle.hs_ports.specs.Fault.{IsCausedBy, IsSteady};
ghost use Rattle.hs_ports.specs.Sink.{Put};
ghost use Rattle.hs_ports.specs.Watch.{Ticks};

use crate::{PortFault, Watch};

/// Takes bytes to the outside, in order.
pub trait Sink {
    /// The bytes that were put, each with its moment, where the sink tells them.
    ghost got: { Self → Option (List (ℕ × ℕ)) };

    /// How often the sink has failed.
    ghost faults: { Self → ℕ };

    /// Raises the watch, puts a front of `piece` at the new moment, and answers how many bytes.
    /// Of a piece that isn't empty it puts at least one byte or answers `Failed`. A put that
    /// fails puts nothing.
    fn put(&mut self, watch: &mut Watch, piece: &[u8]) -> Result<usize, PortFault>
        ensures put { IfOk result (λ n. Put (got self.old) (got self.new) watch.new piece.now n) }
        ensures kept { OnErr result (got self.new ≡ got self.old) }
        ensures not_memory { IfErr result (λ fault. fault ≡ PortFault.Failed) }
        ensures later { Ticks watch.old watch.new }
        ensures calm { IsSteady (faults self.old) (faults self.new) result }
        ensures cause { IsCausedBy PortFault.Failed (faults self.old) (faults self.new) result };
}
