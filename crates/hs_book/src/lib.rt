//! The book: the core behind a lock, as the workers of peers and those who ask see it.
#![tactic(auto)]

mod asking;
mod book;
mod calm;
mod handing;
mod keeper;
mod own;
mod pass;
mod places;
mod seat;

pub use book::{Book, Opening};
pub use calm::nobody_joins;
pub use pass::BookPass;
pub use seat::BookSeat;
