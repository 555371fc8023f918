//! The events of the core: which are due for a line of a script, and what they tell of its course.
#![tactic(auto)]

mod asking;
mod before;
mod due;
mod no_memory;
mod progress;

pub use asking::addressed;
pub use before::{begun_line, fronts_of, goods_of, knowns_of, note_event};
pub use due::{Due, Place, next_due, next_turn, peers_of, turn_behind};
pub use no_memory::NoMemory;
pub use progress::{place_after, raises_known};
