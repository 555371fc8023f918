//! A job in a peer's queue.
use hs_desk::Job;

/// A job in a peer's queue, and the line of the operation that it is for: that of a Read, and else 0.
#[derive(Debug, Drop)]
pub struct Task {
    pub job: Job,
    pub line: u64,
}
