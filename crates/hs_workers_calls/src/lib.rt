//! Peers, writers and the deleter at work in threads, over a book in memory.
#![tactic(auto)]

mod asked;
mod book;
#[cfg(test)]
mod gate;
mod held;
mod locked;
mod pass;
#[cfg(test)]
mod refusing;
#[cfg(test)]
mod running;
mod shelf;
mod team;
mod turns;

pub use held::{Flags, HeldDisk, RaisingGate};
