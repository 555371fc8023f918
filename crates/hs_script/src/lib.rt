//! A script's lines as commands, a journal's entries as lines, and the files of a load.
#![tactic(auto)]

mod data;
mod digits;
mod fault;
mod handles;
mod invocation;
mod longer;
mod name;
mod number;
mod parts;
mod payload;
mod plan;
mod print;
mod put;
mod read;
mod sums;
mod words;
mod written;

pub use fault::ScriptFault;
pub use invocation::{CommandName, Folder, Invocation, KeyWord, Options, Task};
pub use number::number_up_to;
pub use plan::{FilePlan, generate};
pub use print::{print_entry, print_refusal};
pub use read::{LONGEST_LINE, read_line};
pub use sums::{WriterSum, summary};
