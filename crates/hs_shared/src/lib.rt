//! Bytes that their copies share.
#![tactic(auto)]

mod shared;

pub use shared::SharedBytes;
