//! The marks of blocks: the epoch in which each address was last given.
#![tactic(auto)]

mod fault;
mod marks;

pub use fault::MarkFault;
pub use marks::Marks;
