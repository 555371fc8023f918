//! The plain store in memory: the definitions of hs_model as a program, over ordered maps.
#![tactic(auto)]

mod answer;
mod blocks;
mod memory_store;
mod replay;
mod roots;
mod seat;

pub use answer::Answer;
pub use memory_store::MemoryStore;
