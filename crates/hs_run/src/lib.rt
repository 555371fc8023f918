//! A script run on a cluster: its lines, what is printed of them, and how the run ends.
#![tactic(auto)]

mod kinds;
mod outcome;
mod put;
mod reader;
mod run;
mod script;
mod stop;
mod top;

pub use outcome::closed;
pub use put::put_all;
pub use stop::Stop;
pub use top::run_script_on;
