//! What a run of a script on a store promises, as definitions.
#![tactic(auto)]

mod laws;
mod load;
mod outcome;
mod runner;
mod status;
mod told;

pub use laws::{
    a_script_ends_as_no_other_command, another_store_is_found_first, done_is_the_end,
    faults_have_their_causes, only_a_full_journal_refuses, the_end_of_the_core_is_told,
};
pub use load::{Kept, Stored};
pub use outcome::Outcome;
pub use runner::Runner;
pub use status::Status;
pub use told::Told;
