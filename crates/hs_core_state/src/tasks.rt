//! The jobs of peers.
ghost use Rattle.std.specs.Prelude.{◌≡◌, OnOk};
ghost use Rattle.hs_core_words.specs.Changing.{add_entry_tasks, add_task};
ghost use Rattle.hs_core_state.specs.Keeping.{KeepsCore};
ghost use Rattle.hs_members.specs.Members.{IsPeer};

use crate::State;
use crate::no_memory::NoMemory;
use hs_core_words::Task;
use hs_desk::Job;
use hs_entry::Entry;

impl State {
    /// A taken entry makes two jobs of a peer: it is appended, then sealed.
    pub fn add_entry_tasks(&mut self, peer: u8, number: u64, entry: Entry) -> Result<(), NoMemory>
        requires { IsPeer self.old.members.shape peer }
        ensures ok { OnOk result (self.new ≡ add_entry_tasks peer number entry self.old) }
        ensures kept { KeepsCore self.old self.new }
    {
        let append = Job::Append { number, entry };
        self.add_task(
            peer,
            Task {
                job: append,
                line: 0,
            },
        )?;
        let seal = Job::Seal { number };
        self.add_task(peer, Task { job: seal, line: 0 })
    }

    /// A job more for a peer, behind the others.
    pub fn add_task(&mut self, peer: u8, task: Task) -> Result<(), NoMemory>
        requires { IsPeer self.old.members.shape peer }
        ensures ok { OnOk result (self.new ≡ add_task peer task self.old) }
        ensures kept { KeepsCore self.old self.new }
    {
        self.tasks[usize::from(peer)].push(task)?;
        Ok(())
    }
}
