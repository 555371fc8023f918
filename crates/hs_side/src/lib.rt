//! One side of a disk as a log of sealed frames, which survives a stop anywhere.
#![tactic(auto)]

mod append;
mod append_entry;
mod device;
mod fault;
mod format;
mod frame;
mod glance;
mod head;
mod header;
mod laws;
mod lay;
mod log;
mod open;
mod read;
mod reading;

pub use fault::SideFault;
pub use frame::MOST_PAYLOAD;
pub use glance::later_side;
pub use header::Header;
pub use laws::a_log_is_read_exactly_where_it_is_spelled;
pub use log::SideLog;
