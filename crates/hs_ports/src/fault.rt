//! Why a call of a source, a sink or a disk fails.
use thiserror::Error;

/// The fault of a call of a source, a sink or a disk.
#[derive(Clone, Copy, Debug, PartialEq, Eq, Error)]
pub enum PortFault {
    /// The device failed in this call, and its count of faults rose.
    #[error("the device failed")]
    Failed,

    /// Memory for what the call hands over ran out. Only `take` and `read` answer it.
    #[error("out of memory")]
    NoMemory,
}
