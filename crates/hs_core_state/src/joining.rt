//! How far joining peers are.
ghost use Rattle.std.specs.Option.{option_map};
ghost use Rattle.std.specs.Prelude.{◌≡◌, OnOk};
ghost use Rattle.hs_awaiting.specs.Words.{◌▸◌, change_if};
ghost use Rattle.hs_core_words.specs.Changing.{change_group, change_rejoin, set_rejoin};
ghost use Rattle.hs_core_words.specs.Joining.{is_level_with_lead};
ghost use Rattle.hs_core_state.specs.Keeping.{KeepsCore};
ghost use Rattle.hs_core_words.specs.Looking.{home, status_of};
ghost use Rattle.hs_members.specs.Members.{IsPeer, is_joining};
ghost use Rattle.hs_rejoin.specs.Rejoin.{copied, emptied, follow};
ghost use Rattle.hs_replica.specs.Group.{on_copied, on_emptied};

use crate::State;
use crate::no_memory::NoMemory;
use crate::steps::renew_steps;
use hs_limits::PeerStatus;
use hs_rejoin::Rejoin;

impl State {
    /// How far a peer is, where it is joining.
    pub fn set_rejoin(&mut self, peer: u8, rejoin: Option<Rejoin>)
        requires { IsPeer self.old.members.shape peer }
        ensures ok { self.new ≡ set_rejoin peer rejoin self.old }
        ensures kept { KeepsCore self.old self.new }
    {
        let shard = self.home(peer);
        self.rejoins[usize::from(peer)] = rejoin;
        renew_steps(
            &mut self.steps,
            &self.members,
            &self.groups[usize::from(shard)],
            self.rejoins.as_slice(),
            shard,
        );
    }

    /// A peer that is joining copies from this peer on.
    pub fn follow_if_joining(&mut self, peer: u8, lead: u8)
        requires { IsPeer self.old.members.shape peer }
        ensures ok { self.new
            ≡ (self.old ▸ change_if (is_joining (status_of peer self.old)) (change_rejoin peer (follow lead))) }
        ensures members { self.new.members ≡ self.old.members }
        ensures kept { KeepsCore self.old self.new }
    {
        if self.status(peer) == PeerStatus::Joining {
            let shard = self.home(peer);
            follow_from(&mut self.rejoins[usize::from(peer)], lead);
            renew_steps(
                &mut self.steps,
                &self.members,
                &self.groups[usize::from(shard)],
                self.rejoins.as_slice(),
                shard,
            );
        }
    }

    /// A joining peer's disk was emptied, and its list with it.
    pub fn empty_copy(&mut self, peer: u8)
        requires { IsPeer self.old.members.shape peer }
        ensures ok { self.new ≡ (self.old ▸ change_rejoin peer emptied
            ▸ change_group (home peer self.old) (on_emptied peer)) }
        ensures kept { KeepsCore self.old self.new }
    {
        let shard = self.home(peer);
        empty_rejoin(&mut self.rejoins[usize::from(peer)]);
        let group = &mut self.groups[usize::from(shard)];
        group.on_emptied(peer);
        renew_steps(
            &mut self.steps,
            &self.members,
            group,
            self.rejoins.as_slice(),
            shard,
        );
    }

    /// A joining peer's disk got the lead's entry of this number, and so did its list.
    pub fn add_copied(&mut self, peer: u8, number: u64) -> Result<(), NoMemory>
        requires { IsPeer self.old.members.shape peer }
        ensures ok { OnOk result (self.new ≡ (self.old ▸ change_rejoin peer (copied number)
            ▸ change_group (home peer self.old) (on_copied peer number))) }
        ensures kept { KeepsCore self.old self.new }
    {
        let shard = self.home(peer);
        count_copied(&mut self.rejoins[usize::from(peer)], number);
        let group = &mut self.groups[usize::from(shard)];
        let added = group.on_copied(peer, number);
        renew_steps(
            &mut self.steps,
            &self.members,
            group,
            self.rejoins.as_slice(),
            shard,
        );
        match added {
            Ok(()) => Ok(()),
            Err(_) => Err(NoMemory),
        }
    }

    /// Whether a peer is joining, and its list is as long as the lead's.
    pub fn is_level(&self, peer: u8) -> bool
        requires { IsPeer self.now.members.shape peer }
        ensures { result ≡ is_level_with_lead peer self.now }
    {
        let shard = self.home(peer);
        let length = match self.lead(shard) {
            Some(lead) => self.group(shard).length(lead),
            None => 0,
        };
        match &self.rejoins[usize::from(peer)] {
            Some(rejoin) => rejoin.is_level(length),
            None => false,
        }
    }
}

/// A joining peer copies from this peer on.
fn follow_from(rejoin: &mut Option<Rejoin>, lead: u8)
    ensures { rejoin.new ≡ option_map (follow lead) rejoin.old }
{
    match rejoin {
        Some(rejoin) => rejoin.follow(lead),
        None => {}
    }
}

/// The disk of a joining peer was emptied.
fn empty_rejoin(rejoin: &mut Option<Rejoin>)
    ensures { rejoin.new ≡ option_map emptied rejoin.old }
{
    match rejoin {
        Some(rejoin) => rejoin.emptied(),
        None => {}
    }
}

/// The disk of a joining peer got the entry of this number.
fn count_copied(rejoin: &mut Option<Rejoin>, number: u64)
    ensures { rejoin.new ≡ option_map (copied number) rejoin.old }
{
    match rejoin {
        Some(rejoin) => rejoin.copied(number),
        None => {}
    }
}
