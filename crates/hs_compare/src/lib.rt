//! What is wanted beside what came: what differs in a case, and the cases that need no run of the store.
#![tactic(auto)]

mod calls;
mod difference;
mod fits;
mod judge;
mod options;
mod pairs;
mod plain;
mod show_block;
mod show_entry;
mod show_line;
mod show_side;
mod text;

pub use calls::judge_calls;
pub use judge::{Judge, Known};
pub use options::{Options, options_of};
pub use pairs::judge_pairs;
pub use plain::judge_plain;
pub use show_side::kinds_of;
pub use text::Text;
