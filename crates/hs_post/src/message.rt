//! What one peer tells another.
ghost use Rattle.std.specs.Prelude.{◌≡◌, IfOk};

use hs_entry::Entry;
use hs_limits::{Delta, ListOf};
use std::alloc::{AllocError, Global};

/// A message under way.
#[derive(Debug, Drop)]
pub enum Message {
    /// The entry of this number in the list of the shard's lead, for the peer `to`.
    Copy {
        shard: u8,
        to: u8,
        view: u64,
        number: u64,
        entry: Entry,
    },
    /// The peer `from` has sealed the entries up to this number, for the peer `to`, which was the lead.
    Have {
        shard: u8,
        from: u8,
        to: u8,
        view: u64,
        sealed: u64,
    },
    /// A round of the shard `from`, for the lead of the shard `to`.
    Round {
        from: u8,
        to: u8,
        epoch: u64,
        round: u32,
        total: u32,
        deltas: ListOf<Delta>,
    },
}

impl Message {
    /// The same message again.
    pub fn copy(&self, alloc: Global) -> Result<Message, AllocError>
        ensures { IfOk result (λ message. message ≡ self.now) }
    {
        match self {
            Message::Copy {
                shard,
                to,
                view,
                number,
                entry,
            } => Ok(Message::Copy {
                shard: *shard,
                to: *to,
                view: *view,
                number: *number,
                entry: entry.copy(alloc)?,
            }),
            Message::Have {
                shard,
                from,
                to,
                view,
                sealed,
            } => Ok(Message::Have {
                shard: *shard,
                from: *from,
                to: *to,
                view: *view,
                sealed: *sealed,
            }),
            Message::Round {
                from,
                to,
                epoch,
                round,
                total,
                deltas,
            } => Ok(Message::Round {
                from: *from,
                to: *to,
                epoch: *epoch,
                round: *round,
                total: *total,
                deltas: deltas.copy(alloc)?,
            }),
        }
    }
}
