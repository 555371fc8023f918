//! What the words of a command line ask for.
#![tactic(auto)]

mod given;
mod number;
mod options;
mod store;
mod task;
mod words;

pub use words::{invocation_of, invocation_on, wanted, wanted_of};
