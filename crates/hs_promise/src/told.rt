//! One side of a difference in a load.
use hs_desk::CoreFault;
use hs_model::{Deed, Reply};

/// What a session was told, or what the journal has for it.
#[derive(Debug, Drop)]
pub enum Told {
    /// The place in the journal, the deed and the reply of an answer.
    Item(u64, Deed, Reply),
    /// The fault that ended the core.
    Fault(CoreFault),
    /// Nothing.
    Absent,
}
