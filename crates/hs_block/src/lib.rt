//! Blocks: what makes one, its one spelling, and the names of spellings.
#![tactic(auto)]

mod block;
mod fault;
mod names;
mod print;

pub use block::{Block, no_spelling_begins_another, write_head, write_spelling};
pub use fault::BlockFault;
pub use names::{Addresser, ShaNames, TailNames};
pub use print::print_address;
