//! Cases as lines of text: what a file of them says, with no run of any.
#![tactic(auto)]

mod bytes;
mod fault;
mod given;
mod line;
mod number;
mod pass;
mod reader;
mod script;
mod text;
mod wanted;

pub use fault::{CaseFault, Malformed};
pub use given::{Each, Given, Naming};
pub use line::{CaseLine, found, is, lines_of, split_once, split_word};
pub use number::{number_of, range_of, small_of};
pub use pass::{Begins, Pass, passes_of, plain_of};
pub use reader::Reader;
pub use wanted::{Left, Wanted, WantedSide};
