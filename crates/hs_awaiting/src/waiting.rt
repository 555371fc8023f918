//! An operation without an answer.
use crate::Wait;
use hs_ops::Operation;

/// An operation without an answer, the shard that judges it, and what it waits for.
#[derive(Drop)]
pub struct Waiting {
    pub operation: Operation,
    pub shard: u8,
    pub wait: Wait,
}
