//! By what an operation goes on.
use hs_desk::What;
use hs_shared::SharedBytes;

/// By what an operation goes on.
#[derive(Drop)]
pub enum Next {
    /// Its first step, or the step of one that goes on again.
    Go,
    /// The bytes that it wanted were reported, None where they are gone.
    Bytes { bytes: Option<SharedBytes> },
    /// Its entry did this.
    Effect { did: What },
}
