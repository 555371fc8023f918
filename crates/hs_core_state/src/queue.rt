//! The jobs of one peer.
ghost use Rattle.std.specs.Prelude.{◌≡◌, ◌∷◌, ◌++◌, [], drop, slice_get, OnOk, OnErr};
ghost use Rattle.std.specs.Option.{option_copied};

use hs_core_words::Task;
use std::alloc::{AllocError, Global};
use std::collections::VecDeque;
use std::marker::Model;

/// The jobs of one peer, in order.
#[derive(Drop)]
pub(crate) struct Queue {
    tasks: VecDeque<Task>,
}

impl Model for Queue {
    ghost use Rattle.std.specs.Prelude.{List};
    ghost use Rattle.hs_core_words.specs.declared.task.Task.{Task};

    ghost Value = { List Task };

    ghost view = { λ a. a.tasks.items };
}

impl Queue {
    /// No job. It takes no memory.
    pub(crate) fn new(alloc: Global) -> Queue
        ensures { result ≡ [] }
    {
        Queue {
            tasks: VecDeque::new(alloc),
        }
    }

    /// The first job. None exactly where there is none. It takes no memory.
    pub(crate) fn first(&self) -> Option<&Task>
        ensures { option_copied result ≡ slice_get self.now 0 }
    {
        self.tasks.front()
    }

    /// A job more behind the others. Without memory nothing changes.
    pub(crate) fn push(&mut self, task: Task) -> Result<(), AllocError>
        ensures ok { OnOk result (self.new ≡ self.old ++ task ∷ []) }
        ensures same { OnErr result (self.new ≡ self.old) }
    {
        self.tasks.push_back(task)?;
        Ok(())
    }

    /// The first job is taken out, if there is one. It takes no memory.
    pub(crate) fn drop_first(&mut self)
        ensures { self.new ≡ drop 1 self.old }
    {
        self.tasks.pop_front();
    }
}
