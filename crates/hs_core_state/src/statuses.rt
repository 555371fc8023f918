//! What a peer is from now on.
ghost use Rattle.std.specs.Prelude.{◌≡◌, [], None, OnErr, OnOk, true};
ghost use Rattle.hs_awaiting.specs.Words.{◌▸◌};
ghost use Rattle.hs_core_words.specs.Changing.{set_rejoin, set_status, set_tasks};
ghost use Rattle.hs_core_words.specs.Failing.{leave};
ghost use Rattle.hs_core_state.specs.Keeping.{KeepsCore};
ghost use Rattle.hs_core_words.specs.Looking.{status_of};
ghost use Rattle.hs_limits.specs.declared.limits.PeerStatus.TheVariants as is;
ghost use Rattle.hs_members.specs.Members.{IsPeer, become, is_down};

use crate::State;
use crate::no_memory::NoMemory;
use crate::queue::Queue;
use crate::steps::renew_steps;
use hs_limits::PeerStatus;
use hs_members::{MemberFault, Members, home_of};

impl State {
    /// A peer that is down is joining from now on.
    pub fn make_joining(&mut self, peer: u8) -> Result<(), NoMemory>
        requires peer { IsPeer self.old.members.shape peer }
        requires down { is_down (status_of peer self.old) ≡ true }
        ensures ok { OnOk result (self.new ≡ set_status peer is.Joining self.old) }
        ensures kept { KeepsCore self.old self.new }
    {
        let shard = self.home(peer);
        self.members.start(peer)?;
        renew_steps(
            &mut self.steps,
            &self.members,
            &self.groups[usize::from(shard)],
            self.rejoins.as_slice(),
            shard,
        );
        Ok(())
    }

    /// A peer is good from now on, and copies no more.
    pub fn make_good(&mut self, peer: u8) -> Result<(), NoMemory>
        requires { IsPeer self.old.members.shape peer }
        ensures ok { OnOk result (self.new ≡ (self.old ▸ set_status peer is.Good ▸ set_rejoin peer None)) }
        ensures kept { KeepsCore self.old self.new }
    {
        let shard = self.home(peer);
        become_good(&mut self.members, peer)?;
        self.rejoins[usize::from(peer)] = None;
        renew_steps(
            &mut self.steps,
            &self.members,
            &self.groups[usize::from(shard)],
            self.rejoins.as_slice(),
            shard,
        );
        Ok(())
    }

    /// A peer is down from now on: its jobs are dropped, and the Copies and Haves for it are taken out
    /// of the pool. Where there is no such peer only these are.
    pub fn leave(&mut self, peer: u8) -> Result<(), NoMemory>
        ensures ok { OnOk result (self.new ≡ leave peer self.old) }
        ensures kept { KeepsCore self.old self.new }
    {
        let shape = self.shape();
        if peer < shape.shards * shape.copies {
            self.make_down(peer)?;
        }
        self.pool.drop_for(peer);
        Ok(())
    }

    /// A peer is down from now on, without a job.
    fn make_down(&mut self, peer: u8) -> Result<(), NoMemory>
        requires { IsPeer self.old.members.shape peer }
        ensures ok { OnOk result (self.new ≡ (self.old ▸ set_status peer is.Down ▸ set_tasks peer []
            ▸ set_rejoin peer None)) }
        ensures kept { KeepsCore self.old self.new }
    {
        let shard = self.home(peer);
        become_down(&mut self.members, peer)?;
        self.tasks[usize::from(peer)] = Queue::new(self.alloc);
        self.rejoins[usize::from(peer)] = None;
        renew_steps(
            &mut self.steps,
            &self.members,
            &self.groups[usize::from(shard)],
            self.rejoins.as_slice(),
            shard,
        );
        Ok(())
    }
}

/// A peer is good from now on, whatever it was.
fn become_good(members: &mut Members, peer: u8) -> Result<(), NoMemory>
    requires { IsPeer members.old.shape peer }
    ensures ok { OnOk result (members.new ≡ become peer is.Good members.old) }
    ensures same { OnErr result (members.new ≡ members.old) }
{
    let was = members.status(peer);
    if was == PeerStatus::Good {
        return Ok(());
    }
    if members.view(home_of(peer, members.shape())) == u64::MAX {
        return Err(NoMemory);
    }
    if was == PeerStatus::Down {
        members.start(peer)?;
    }
    members.join(peer);
    Ok(())
}

/// A peer is down from now on, whatever it was.
fn become_down(members: &mut Members, peer: u8) -> Result<(), NoMemory>
    requires { IsPeer members.old.shape peer }
    ensures ok { OnOk result (members.new ≡ become peer is.Down members.old) }
    ensures same { OnErr result (members.new ≡ members.old) }
{
    match members.fail(peer) {
        Ok(()) | Err(MemberFault::NotUp) => Ok(()),
        Err(_) => Err(NoMemory),
    }
}
