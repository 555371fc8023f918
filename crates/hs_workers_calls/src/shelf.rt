//! What waits for a peer.
ghost use Rattle.std.specs.Prelude.{◌≡◌, ◌==◌, is_none, true};
ghost use Rattle.std.specs.VecDeque.{deque_len};
ghost use Rattle.hs_desk.specs.Slips.{is_own_job};

use hs_desk::Job;
use hs_entry::Entry;
use hs_shared::SharedBytes;
use std::alloc::{AllocError, Global};
use std::collections::VecDeque;

/// What a peer is to do. Each entry is a block's.
#[derive(Debug, Drop)]
pub(crate) enum Task {
    Append { number: u64, bytes: SharedBytes },
    Seal { number: u64 },
    Read { number: u64 },
}

impl Task {
    /// The job.
    pub(crate) fn into_job(self) -> Job
        ensures { is_own_job result ≡ true }
    {
        match self {
            Task::Append { number, bytes } => Job::Append {
                number,
                entry: Entry::Block {
                    op: number,
                    least: 1,
                    bytes,
                },
            },
            Task::Seal { number } => Job::Seal { number },
            Task::Read { number } => Job::Read { number },
        }
    }
}

/// The tasks of a peer in order, how many entries they are of, and whether its disk failed.
#[derive(Debug, Drop)]
pub(crate) struct Shelf {
    pub(crate) tasks: VecDeque<Task>,
    pub(crate) entries: u64,
    pub(crate) failed: bool,
}

impl Shelf {
    /// Nothing waits.
    pub(crate) fn new(alloc: Global) -> Shelf {
        Shelf {
            tasks: VecDeque::new(alloc),
            entries: 0,
            failed: false,
        }
    }

    /// Puts a task behind the others.
    pub(crate) fn put(&mut self, task: Task) -> Result<(), AllocError> {
        match self.tasks.push_back(task) {
            Ok(()) => Ok(()),
            Err(_) => Err(AllocError),
        }
    }

    /// The first task, which leaves.
    pub(crate) fn take(&mut self) -> Option<Task>
        ensures { is_none result ≡ (deque_len self.old.tasks == 0) }
    {
        self.tasks.pop_front()
    }

    /// Puts an entry with its seal and a read of it behind the others, and answers its number.
    pub(crate) fn log(&mut self, bytes: SharedBytes) -> Result<u64, AllocError> {
        let Some(number) = self.entries.checked_add(1) else {
            return Err(AllocError);
        };
        self.put(Task::Append { number, bytes })?;
        self.put(Task::Seal { number })?;
        self.put(Task::Read { number })?;
        self.entries = number;
        Ok(number)
    }
}
