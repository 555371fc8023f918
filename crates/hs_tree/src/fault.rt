//! Why a file was not stored, or not given back.
ghost use Rattle.std.specs.Prelude.{◌≡◌};
ghost use Rattle.hs_tree.specs.declared.fault.TreeFault.TheVariants.{NoMemory};

use hs_desk::CoreFault;
use hs_limits::Address;
use hs_model::Reply;
use std::alloc::AllocError;
use thiserror::Error;

/// Why a file was not stored, or not given back.
#[derive(Debug, Drop, Error)]
pub enum TreeFault {
    /// What was asked has ended, with this fault.
    #[error("the store has ended")]
    Core(CoreFault),
    /// The source failed, and its count rose.
    #[error("the source failed")]
    Read,
    /// 67,108,864 bytes were taken, and another one came.
    #[error("the file is longer than 67108864 bytes")]
    InputFull,
    /// An operation was refused.
    #[error("refused")]
    Refused(Reply),
    /// The key keeps a block that is not the top of a file's tree.
    #[error("the root is not a stored file")]
    NotATree { address: Address },
    /// There was not enough memory.
    #[error("out of memory")]
    NoMemory,
}

impl From<AllocError> for TreeFault {
    ghost from_gives = { λ _ fault. fault ≡ NoMemory };

    fn from(_error: AllocError) -> TreeFault {
        TreeFault::NoMemory
    }
}
