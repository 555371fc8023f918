//! The lines that wait for something, in order.
#![tactic(auto)]

mod cause;
mod lines;
mod waits;

pub use cause::Cause;
pub use lines::{Lines, earlier};
pub use waits::Waits;
