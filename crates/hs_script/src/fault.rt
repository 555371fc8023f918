//! Why no line was read, or none printed.
ghost use Rattle.std.specs.Prelude.{◌≡◌};
ghost use Rattle.hs_script.specs.declared.fault.ScriptFault.TheVariants.{NoMemory};

use std::alloc::AllocError;
use thiserror::Error;

/// Why no line was read, or none printed.
#[derive(Clone, Copy, Debug, PartialEq, Eq, Error)]
pub enum ScriptFault {
    /// The line is outside the language.
    #[error("the line is outside the language")]
    BadLine,
    /// There was not enough memory.
    #[error("out of memory")]
    NoMemory,
}

impl From<AllocError> for ScriptFault {
    ghost from_gives = { λ _ fault. fault ≡ NoMemory };

    fn from(_error: AllocError) -> ScriptFault {
        ScriptFault::NoMemory
    }
}
