//! Asking a store one operation after another, and what an asker tells of the plain store behind it.
#![tactic(auto)]

mod asker;
mod laws;

pub use asker::Asker;
pub use laws::{a_root_keeps_its_blocks, an_ask_is_judged};
