//! Why a peer's log can't go on.
ghost use Rattle.std.specs.Prelude.{◌≡◌};
ghost use Rattle.hs_peerlog.specs.Caused.{of_port, of_side};

use hs_ports::PortFault;
use hs_side::{Header, SideFault};
use thiserror::Error;

/// Why a peer's log can't go on.
#[derive(Clone, Copy, Debug, PartialEq, Eq, Error)]
pub enum LogFault {
    /// The current side is no log: the first place that is wrong.
    #[error("the disk is no log, from byte {at} on")]
    NotALog { at: u64 },
    /// The disk is of a store of another shape, or of another peer.
    #[error("the disk is of another store")]
    WrongShape { found: Header },
    /// The disk failed.
    #[error("the disk failed")]
    Disk,
    /// There was not enough memory.
    #[error("out of memory")]
    NoMemory,
}

impl From<SideFault> for LogFault {
    ghost from_gives = { λ side fault. fault ≡ of_side side };

    fn from(side: SideFault) -> LogFault {
        match side {
            SideFault::NotALog { at } => LogFault::NotALog { at },
            SideFault::Disk => LogFault::Disk,
            SideFault::NoMemory => LogFault::NoMemory,
        }
    }
}

impl From<PortFault> for LogFault {
    ghost from_gives = { λ port fault. fault ≡ of_port port };

    fn from(port: PortFault) -> LogFault {
        match port {
            PortFault::Failed => LogFault::Disk,
            PortFault::NoMemory => LogFault::NoMemory,
        }
    }
}
