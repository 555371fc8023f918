//! A cache of bytes that were read lately.
#![tactic(auto)]

mod cache;
mod fault;
mod recent;

pub use cache::Cache;
pub use fault::CacheFault;
pub use recent::{recall, remember};
