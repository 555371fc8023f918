//! Why no block was made or read, or nothing was written.
ghost use Rattle.std.specs.Prelude.{◌≡◌};
ghost use Rattle.hs_block.specs.declared.fault.BlockFault.TheVariants.{NoMemory};
ghost use Rattle.hs_block.specs.Refusal.{block_fault};

use hs_limits::SpellingFault;
use std::alloc::AllocError;
use thiserror::Error;

/// Why no block was made or read, or nothing was written.
#[derive(Clone, Copy, Debug, PartialEq, Eq, Error)]
pub enum BlockFault {
    /// The input ends inside a field, at `at`.
    #[error("the block ends inside a field, at byte {at}")]
    Short { at: u64 },
    /// The first byte is not 1.
    #[error("a block begins with 1, not {found}")]
    BadVersion { found: u8 },
    /// There were more than 64 pointers: so many.
    #[error("a block has at most 64 pointers, not {found}")]
    TooMany { found: u64 },
    /// There were more than 65,536 bytes: so many.
    #[error("a block has at most 65536 bytes, not {found}")]
    TooLong { found: u64 },
    /// The block ends before the input does: the place of the first byte behind it.
    #[error("the block ends before byte {at}")]
    Trailing { at: u64 },
    /// There was not enough memory.
    #[error("out of memory")]
    NoMemory,
}

impl From<AllocError> for BlockFault {
    ghost from_gives = { λ _ fault. fault ≡ NoMemory };

    fn from(_error: AllocError) -> BlockFault {
        BlockFault::NoMemory
    }
}

impl From<SpellingFault> for BlockFault {
    ghost from_gives = { λ reason fault. fault ≡ block_fault reason };

    fn from(reason: SpellingFault) -> BlockFault {
        match reason {
            SpellingFault::Short { at } => BlockFault::Short { at },
            SpellingFault::BadVersion { found } => BlockFault::BadVersion { found },
            SpellingFault::TooMany { found } => BlockFault::TooMany { found },
            SpellingFault::TooLong { found } => BlockFault::TooLong { found },
            SpellingFault::Trailing { at } => BlockFault::Trailing { at },
        }
    }
}
