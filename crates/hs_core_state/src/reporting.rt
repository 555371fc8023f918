//! The job that a report answers.
ghost use Rattle.std.specs.Prelude.{◌≡◌, drop};
ghost use Rattle.hs_core_words.specs.Changing.{set_tasks};
ghost use Rattle.hs_core_state.specs.Handing.{answered_line};
ghost use Rattle.hs_core_words.specs.Looking.{tasks_of};
ghost use Rattle.hs_members.specs.Members.{IsPeer};

use crate::State;
use hs_desk::Done;
use hs_limits::PeerStatus;

impl State {
    /// The line of the operation that the first job of a peer is for, where the report answers that
    /// job: that of a Read, and else 0.
    pub fn answered_line(&self, peer: u8, done: &Done) -> Option<u64>
        requires { IsPeer self.now.members.shape peer }
        ensures { result ≡ answered_line peer done.now self.now }
    {
        if !done.answers(peer, self.first_job(peer)?) {
            return None;
        }
        if self.status(peer) == PeerStatus::Joining {
            return Some(0);
        }
        match self.tasks[usize::from(peer)].first() {
            Some(task) => Some(task.line),
            None => None,
        }
    }

    /// The first job of a peer is taken out.
    pub fn drop_first_task(&mut self, peer: u8)
        requires { IsPeer self.old.members.shape peer }
        ensures { self.new ≡ set_tasks peer (drop 1 (tasks_of peer self.old)) self.old }
    {
        let _shape = self.shape();
        self.tasks[usize::from(peer)].drop_first();
    }
}
