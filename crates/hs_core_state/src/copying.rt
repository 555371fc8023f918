//! What the copies of a shard's list take and tell.
ghost use Rattle.std.specs.Prelude.{◌≡◌, ◌+◌, IfOk, OnOk};
ghost use Rattle.hs_awaiting.specs.Words.{◌▸◌};
ghost use Rattle.hs_core_words.specs.Changing.{change_group, post};
ghost use Rattle.hs_core_state.specs.Keeping.{KeepsCore};
ghost use Rattle.hs_core_words.specs.Looking.{group_of, home};
ghost use Rattle.hs_core_words.specs.Operating.{propose_entry};
ghost use Rattle.hs_members.specs.Members.{IsPeer, IsShard};
ghost use Rattle.hs_replica.specs.Group.{committed, have, last_number, on_append, on_have, on_sealed, proposal, propose, resend, take_committed, takes};

use crate::State;
use crate::no_memory::NoMemory;
use crate::steps::renew_steps;
use hs_entry::Entry;

impl State {
    /// An entry is proposed: it is the next of the lead's list, every other good peer is sent a Copy,
    /// and the lead has the jobs of it.
    pub fn propose_entry(&mut self, shard: u8, entry: Entry) -> Result<(), NoMemory>
        requires { IsShard self.old.members.shape shard }
        ensures ok { OnOk result (self.new ≡ propose_entry shard entry self.old) }
        ensures kept { KeepsCore self.old self.new }
    {
        let copy = entry.copy(self.alloc)?;
        let lead = self.lead(shard);
        let number = self.propose(shard, copy)?;
        if let Some(lead) = lead {
            self.add_entry_tasks(lead, number, entry)?;
        }
        Ok(())
    }

    /// An entry is the next of the lead's list, and every other good peer is sent a Copy. The number
    /// of the entry.
    fn propose(&mut self, shard: u8, entry: Entry) -> Result<u64, NoMemory>
        requires { IsShard self.old.members.shape shard }
        ensures ok { OnOk result (self.new ≡ (self.old ▸ change_group shard (propose entry)
            ▸ post (proposal entry (group_of shard self.old)))) }
        ensures number { IfOk result (λ number. number ≡ last_number (group_of shard self.old) + 1) }
        ensures kept { KeepsCore self.old self.new }
    {
        let group = &mut self.groups[usize::from(shard)];
        let proposed = group.propose(&mut self.pool, entry);
        renew_steps(
            &mut self.steps,
            &self.members,
            group,
            self.rejoins.as_slice(),
            shard,
        );
        match proposed {
            Ok(number) => Ok(number),
            Err(_) => Err(NoMemory),
        }
    }

    /// A Copy comes to a peer: whether it is taken, and then its list has an entry more.
    pub fn append(
        &mut self,
        shard: u8,
        peer: u8,
        view: u64,
        number: u64,
        entry: &Entry,
    ) -> Result<bool, NoMemory>
        requires { IsShard self.old.members.shape shard }
        ensures ok { OnOk result (self.new
            ≡ change_group shard (on_append peer view number entry.now) self.old) }
        ensures taken { IfOk result (λ taken. taken ≡ takes peer view number (group_of shard self.old)) }
        ensures kept { KeepsCore self.old self.new }
    {
        let group = &mut self.groups[usize::from(shard)];
        let taken = group.on_append(peer, view, number, entry);
        renew_steps(
            &mut self.steps,
            &self.members,
            group,
            self.rejoins.as_slice(),
            shard,
        );
        match taken {
            Ok(taken) => Ok(taken),
            Err(_) => Err(NoMemory),
        }
    }

    /// A Have comes to a shard's lead: of the shard's view and from a good peer it raises the number
    /// that the lead knows, and any other changes nothing. It takes no memory.
    pub fn take_have_in(&mut self, shard: u8, from: u8, view: u64, sealed: u64)
        ensures ok { self.new ≡ change_group shard (on_have from view sealed) self.old }
        ensures kept { KeepsCore self.old self.new }
    {
        if shard >= self.shape().shards {
            return;
        }
        let group = &mut self.groups[usize::from(shard)];
        group.on_have(from, view, sealed);
        renew_steps(
            &mut self.steps,
            &self.members,
            group,
            self.rejoins.as_slice(),
            shard,
        );
    }

    /// A peer has sealed so many entries: the lead knows its own at once, and another peer sends the
    /// lead a Have.
    pub fn seal_known(&mut self, peer: u8, number: u64) -> Result<(), NoMemory>
        requires { IsPeer self.old.members.shape peer }
        ensures ok { OnOk result (self.new
            ≡ (self.old ▸ post (have peer number (group_of (home peer self.old) self.old))
            ▸ change_group (home peer self.old) (on_sealed peer number))) }
        ensures kept { KeepsCore self.old self.new }
    {
        let shard = self.home(peer);
        let group = &mut self.groups[usize::from(shard)];
        let sealed = group.on_sealed(&mut self.pool, peer, number);
        renew_steps(
            &mut self.steps,
            &self.members,
            group,
            self.rejoins.as_slice(),
            shard,
        );
        match sealed {
            Ok(()) => Ok(()),
            Err(_) => Err(NoMemory),
        }
    }

    /// Hands out the next entry of a shard that all good peers are known to have sealed, with its
    /// number. None exactly where all of them were handed out. It takes no memory.
    pub fn take_committed(&mut self, shard: u8) -> Option<(u64, Entry)>
        requires { IsShard self.old.members.shape shard }
        ensures entry { result ≡ committed (group_of shard self.old) }
        ensures rest { self.new ≡ change_group shard take_committed self.old }
        ensures kept { KeepsCore self.old self.new }
    {
        let place = usize::from(shard);
        let (number, entry) = self.groups[place].take_committed()?;
        self.fronts[place] = number;
        Some((number, entry))
    }

    /// A peer sends again: a lead what it doesn't know the other good peers to have sealed, and another
    /// peer its Have.
    pub fn resend(&mut self, peer: u8) -> Result<(), NoMemory>
        requires { IsPeer self.old.members.shape peer }
        ensures ok { OnOk result (self.new
            ≡ post (resend peer (group_of (home peer self.old) self.old)) self.old) }
        ensures kept { KeepsCore self.old self.new }
    {
        let shard = self.home(peer);
        self.groups[usize::from(shard)].resend(&mut self.pool, peer)?;
        Ok(())
    }
}
