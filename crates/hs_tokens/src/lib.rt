//! The open sessions, and the handles that each of them holds.
#![tactic(auto)]

mod fault;
mod seat;
mod sessions;
mod view;

pub use fault::SeatFault;
pub use sessions::Sessions;
pub use view::SessionsView;
