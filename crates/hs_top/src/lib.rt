//! The top call: a script on the disks of a store, as the words of its command line ask.
#![tactic(auto)]

mod files;
mod laws;
mod load;
mod status;
mod top;
mod words;

pub use hs_promise::{Outcome, Status};
pub use laws::{a_run_may_begin, a_run_may_follow};
pub use load::load_with;
pub use status::{TopFault, exit_code, fault_line};
pub use top::{hydra, hydra_alone};
pub use words::{is_load, second_shape, shape_of};
