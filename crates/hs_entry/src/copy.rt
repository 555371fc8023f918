//! The same entry again.
ghost use Rattle.std.specs.Prelude.{◌≡◌, IfOk, IsTrue};
ghost use Rattle.hs_entry.specs.Entries.{is_of_base};

use crate::Entry;
use std::alloc::{AllocError, Global};

impl Entry {
    /// The same entry again.
    pub fn copy(&self, alloc: Global) -> Result<Entry, AllocError>
        ensures { IfOk result (λ entry. entry ≡ self.now) }
    {
        match *self {
            Entry::View { view } => Ok(Entry::View { view }),
            Entry::Block {
                op,
                least,
                ref bytes,
            } => Ok(Entry::Block {
                op,
                least,
                bytes: bytes.copy()?,
            }),
            Entry::Mark {
                op,
                least,
                block,
                address,
            } => Ok(Entry::Mark {
                op,
                least,
                block,
                address,
            }),
            Entry::Root {
                op,
                held,
                address,
                ref key,
            } => Ok(Entry::Root {
                op,
                held,
                address,
                key: key.copy(alloc)?,
            }),
            Entry::Drop { op, ref key } => Ok(Entry::Drop {
                op,
                key: key.copy(alloc)?,
            }),
            Entry::Enter { op, epoch } => Ok(Entry::Enter { op, epoch }),
            Entry::Got {
                sender,
                epoch,
                round,
                total,
                ref deltas,
            } => Ok(Entry::Got {
                sender,
                epoch,
                round,
                total,
                deltas: deltas.copy(alloc)?,
            }),
            _ => copy_frame(self, alloc),
        }
    }
}

/// The same Base or kept frame again.
fn copy_frame(entry: &Entry, alloc: Global) -> Result<Entry, AllocError>
    requires { IsTrue (is_of_base entry.now) }
    ensures { IfOk result (λ copy. copy ≡ entry.now) }
{
    match *entry {
        Entry::Base {
            view,
            epoch,
            swept,
            round,
            frames,
        } => Ok(Entry::Base {
            view,
            epoch,
            swept,
            round,
            frames,
        }),
        Entry::KeptBlock {
            born,
            mark,
            flags,
            count,
            ref bytes,
        } => Ok(Entry::KeptBlock {
            born,
            mark,
            flags,
            count,
            bytes: bytes.copy(alloc)?,
        }),
        Entry::KeptRoot {
            created,
            dropped,
            counted,
            address,
            ref key,
        } => Ok(Entry::KeptRoot {
            created,
            dropped,
            counted,
            address,
            key: key.copy(alloc)?,
        }),
        Entry::KeptRound {
            way,
            other,
            epoch,
            round,
            total,
            ref deltas,
        } => Ok(Entry::KeptRound {
            way,
            other,
            epoch,
            round,
            total,
            deltas: deltas.copy(alloc)?,
        }),
        _ => unreachable!(),
    }
}
