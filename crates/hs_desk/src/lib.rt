//! What a peer is given to do and reports, what its entries did, what is noted of it, and why a core has ended.
#![tactic(auto)]

mod clerk;
mod desk;
mod done;
mod fault;
mod gate;
mod holding;
mod job;
mod roomy;
mod slip;
mod token;
mod what;

pub use clerk::{Clerk, Pass};
pub use desk::{Desk, Seat};
pub use done::Done;
pub use fault::CoreFault;
pub use gate::{Gate, OpenGate};
pub use job::{Job, Next, Work};
pub use roomy::RoomyList;
pub use slip::Slip;
pub use token::Token;
pub use what::What;
