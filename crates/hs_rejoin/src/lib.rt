//! How a joining peer gets the lead's list.
#![tactic(auto)]

mod laws;
mod rejoin;

pub use laws::the_copied_list_is_the_leads;
pub use rejoin::Rejoin;
