//! Which line of a script, and which word of a command line, is wrong, and why.
#![tactic(auto)]

mod bad_line;
mod words;

pub use bad_line::{BadCause, first_cause, tell_cause};
pub use words::{WordFault, tell_word, wrong_word};

#[cfg(test)]
mod tests;
