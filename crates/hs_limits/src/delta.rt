//! Changes of counts.
use crate::Address;

/// How much the count of a block changes.
#[derive(Clone, Copy, Debug, PartialEq, Eq)]
pub struct Delta {
    pub address: Address,
    pub amount: u32,
}
