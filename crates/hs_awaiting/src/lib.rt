//! The operations without an answer, found by session, by what may wake them, by block and by shard.
#![tactic(auto)]

mod causes;
mod fault;
mod judging;
mod keys;
mod kinds;
mod lines;
mod next;
mod operations;
mod table;
mod views;
mod wait;
mod waiting;

pub use fault::AwaitingFault;
pub use judging::{Judged, judge};
pub use kinds::{puts_root, writes_block};
pub use lines::next_line;
pub use next::Next;
pub use operations::Operations;
pub use wait::Wait;
pub use waiting::Waiting;
