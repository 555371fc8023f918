//! What the core does one at a time.
use hs_desk::Done;
use hs_model::Op;

/// An event. `line` is the line of the script that it belongs to, 0 outside a script; a refusal of an
/// event that is not a client's is noted under it.
#[derive(Debug, Drop)]
pub enum Event {
    /// A client asks for an operation.
    Line { line: u64, op: Op },
    /// A peer reports what its first job came to.
    Report { peer: u8, done: Done },
    /// A turn of a peer is asked for: only whether it is refused is noted.
    Turn { line: u64, peer: u8 },
    /// The message of this number comes.
    Deliver { line: u64, message: u64 },
    /// The message of this number is lost.
    Lose { line: u64, message: u64 },
    /// The message of this number is sent once more.
    Repeat { line: u64, message: u64 },
    /// A peer sends again what may have been lost.
    Nudge { line: u64, peer: u8 },
    /// A peer fails.
    Fail { line: u64, peer: u8 },
    /// A peer that is down begins to join.
    Start { line: u64, peer: u8 },
}
