//! What a line of a script asks for.
use crate::Op;

/// A line of a script that is neither blank nor a comment: a client's operation, or what drives the store.
#[derive(Debug, Drop)]
pub enum Command {
    Client(Op),
    Settle,
    Turn { peer: u8 },
    Nudge { peer: u8 },
    Deliver { message: u64 },
    Lose { message: u64 },
    Repeat { message: u64 },
    Fail { peer: u8 },
    Start { peer: u8 },
    Reclaim { peer: u8 },
}
