//! Which logs a store opens with, and what they amount to.
#![tactic(auto)]

mod choosing;
mod chosen;
mod comparing;
mod copies;
mod evening;
mod fault;
mod leveling;
mod loading;
mod pair;
mod shares;
mod slot;
mod store;
mod taking;
mod viewing;

pub use choosing::{ranks_of, taken_peer};
pub use chosen::the_taken_list_stays_chosen;
pub use fault::TakeFault;
pub use loading::{Loaded, load};
pub use shares::{Share, Taking};
pub use store::read_store;
pub use viewing::view_all;
