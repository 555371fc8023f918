//! Faults of two disks.
ghost use Rattle.std.specs.Prelude.{◌≡◌};
ghost use Rattle.hs_taking.specs.Loaded.{is_memory};
ghost use Rattle.hs_taking.specs.Pairs.{other_fault, taken_fault};

use hs_peerlog::LogFault;

/// Why two logs can't be compared, or made equal: which of their disks failed, or gave what is no
/// entry of its log.
#[derive(Clone, Copy, Debug, PartialEq, Eq)]
pub(crate) enum PairFault {
    /// That of the taken log.
    Taken,
    /// That of the other one.
    Other,
    /// There was not enough memory.
    NoMemory,
}

/// A fault of the disk of the taken log.
pub(crate) fn taken_fault(fault: LogFault) -> PairFault
    ensures { result ≡ taken_fault fault }
{
    match fault {
        LogFault::NoMemory => PairFault::NoMemory,
        LogFault::Disk | LogFault::NotALog { .. } | LogFault::WrongShape { .. } => PairFault::Taken,
    }
}

/// A fault of the other disk.
pub(crate) fn other_fault(fault: LogFault) -> PairFault
    ensures { result ≡ other_fault fault }
{
    match fault {
        LogFault::NoMemory => PairFault::NoMemory,
        LogFault::Disk | LogFault::NotALog { .. } | LogFault::WrongShape { .. } => PairFault::Other,
    }
}

/// Whether memory ran out.
pub(crate) fn is_memory(fault: LogFault) -> bool
    ensures { result ≡ is_memory fault }
{
    match fault {
        LogFault::NoMemory => true,
        LogFault::Disk | LogFault::NotALog { .. } | LogFault::WrongShape { .. } => false,
    }
}
