//! The peers of a store, the views of its shards, and the leads.
ghost use Rattle.std.specs.Prelude.{◌≡◌, ◌≢◌, ◌*◌, ◌<◌, ◌^◌, ◌-◌, length, map, is_some, IfOk, IfSome, OnOk, OnErr, if◌then◌else◌};
ghost use Rattle.hs_limits.specs.declared.limits.PeerStatus.TheVariants as is;
ghost use Rattle.hs_limits.specs.Shape.{IsShape};
ghost use Rattle.hs_members.specs.declared.fault.MemberFault.TheVariants as fault;
ghost use Rattle.hs_members.specs.Members.{IsLead, IsMembers, IsPeer, IsShard, become, has_good, home_of, is_down, is_good_status, lead_by, longer, members_at, status, view_of};

use crate::MemberFault;
use hs_limits::{PeerStatus, Shape, peer_of};
use std::alloc::{AllocError, Global};
use std::marker::Model;

/// The status of each peer, and the view of each shard.
#[derive(Debug, Drop)]
pub struct Members {
    shape: Shape,
    views: Vec<u64>,
    statuses: Vec<PeerStatus>,
}

impl Model for Members {
    ghost use Rattle.hs_members.specs.Members.{IsMembers, Members};

    ghost Value = { Members };

    ghost view = { λ a. record {
      shape = a.shape;
      views = a.views.items;
      statuses = a.statuses.items;
    } };

    ghost invariant = { λ a. IsMembers (record {
      shape = a.shape;
      views = a.views.items;
      statuses = a.statuses.items;
    }) };
}

impl Members {
    /// The peers at these views: Good where `good` says so, and else Down.
    pub fn new(
        alloc: Global,
        shape: Shape,
        views: &[u64],
        good: &[bool],
    ) -> Result<Members, MemberFault>
        requires shape { IsShape shape }
        requires views { length views.now ≡ shape.shards }
        requires good { length good.now ≡ shape.shards * shape.copies }
        ensures { IfOk result (λ members. members ≡ members_at shape views.now good.now) }
    {
        match (Vec::from_slice(alloc, views), statuses_of(alloc, good)) {
            (Ok(views), Ok(statuses)) => Ok(Members {
                shape,
                views,
                statuses,
            }),
            _ => Err(MemberFault::NoMemory),
        }
    }

    /// The shape of the store.
    pub fn shape(&self) -> Shape
        ensures value { result ≡ self.now.shape }
        ensures valid { IsMembers self.now }
    {
        self.shape
    }

    /// The view of a shard. It takes no memory.
    pub fn view(&self, shard: u8) -> u64
        requires { IsShard self.now.shape shard }
        ensures { result ≡ view_of shard self.now }
    {
        self.views[usize::from(shard)]
    }

    /// What a peer is. It takes no memory.
    pub fn status(&self, peer: u8) -> PeerStatus
        requires { IsPeer self.now.shape peer }
        ensures { result ≡ status peer self.now }
    {
        self.statuses[usize::from(peer)]
    }

    /// A peer is Down from now on; where it was Good, the view of its shard rises. Where that view
    /// has no next one the answer is NoMemory.
    pub fn fail(&mut self, peer: u8) -> Result<(), MemberFault>
        requires { IsPeer self.old.shape peer }
        ensures ok { OnOk result (self.new ≡ become peer is.Down self.old) }

        ensures refused { status peer self.old ≡ is.Down → result ≡ Err fault.NotUp }
        ensures cause { result ≡ Err fault.NotUp → status peer self.old ≡ is.Down }
        ensures other_cause { result ≢ Err fault.NotDown }
        ensures at_end { result ≡ Err fault.NoMemory
            → view_of (home_of self.old.shape peer) self.old ≡ 2 ^ 64 - 1 }
        ensures same { OnErr result (self.new ≡ self.old) }
    {
        match self.status(peer) {
            PeerStatus::Down => Err(MemberFault::NotUp),
            PeerStatus::Joining => {
                self.statuses[usize::from(peer)] = PeerStatus::Down;
                Ok(())
            }
            PeerStatus::Good => {
                let home = home_of(peer, self.shape);
                let Some(next) = self.view(home).checked_add(1) else {
                    return Err(MemberFault::NoMemory);
                };
                self.views[usize::from(home)] = next;
                self.statuses[usize::from(peer)] = PeerStatus::Down;
                Ok(())
            }
        }
    }

    /// A peer that was Down is Joining from now on.
    pub fn start(&mut self, peer: u8) -> Result<(), MemberFault>
        requires { IsPeer self.old.shape peer }
        ensures answer { result ≡ (if is_down (status peer self.old) then Ok tt else Err fault.NotDown) }
        ensures ok { OnOk result (self.new ≡ become peer is.Joining self.old) }
        ensures same { OnErr result (self.new ≡ self.old) }
    {
        match self.status(peer) {
            PeerStatus::Down => {
                self.statuses[usize::from(peer)] = PeerStatus::Joining;
                Ok(())
            }
            PeerStatus::Good | PeerStatus::Joining => Err(MemberFault::NotDown),
        }
    }

    /// A peer that was Joining is Good from now on, and the view of its shard rises.
    pub fn join(&mut self, peer: u8)
        requires peer { IsPeer self.old.shape peer }
        requires joining { status peer self.old ≡ is.Joining }
        requires room { view_of (home_of self.old.shape peer) self.old < 2 ^ 64 - 1 }
        ensures { self.new ≡ become peer is.Good self.old }
    {
        let home = home_of(peer, self.shape);
        self.views[usize::from(home)] += 1;
        self.statuses[usize::from(peer)] = PeerStatus::Good;
    }

    /// Whether a peer of the shard is Good. It takes no memory.
    pub fn has_good(&self, shard: u8) -> bool
        requires { IsShard self.now.shape shard }
        ensures { result ≡ has_good shard self.now }
    {
        let first = peer_of(shard, 0, self.shape);
        (first..first + self.shape.copies).any(|peer| self.is_good(peer))
    }

    /// The lead of a shard: its good peer with the longest list, of equals the lowest. `lengths` are
    /// those of the lists at its copies, in order. It takes no memory.
    pub fn lead(&self, shard: u8, lengths: &[u64]) -> Option<u8>
        requires shard { IsShard self.now.shape shard }
        requires lengths { length lengths.now ≡ self.now.shape.copies }
        ensures value { result ≡ lead_by shard lengths.now self.now }
        ensures found { is_some result ≡ has_good shard self.now }
        ensures lead { IfSome result (IsLead shard lengths.now self.now) }
    {
        let mut best: Option<(u8, u64)> = None;
        for copy in (0..self.shape.copies).rev() {
            let peer = peer_of(shard, copy, self.shape);
            let length = lengths[usize::from(copy)];
            if self.is_good(peer) {
                best = Some(longer((peer, length), best));
            }
        }
        best.map(|(peer, _)| peer)
    }

    fn is_good(&self, peer: u8) -> bool
        requires { IsPeer self.now.shape peer }
        ensures { result ≡ is_good_status (status peer self.now) }
    {
        self.status(peer) == PeerStatus::Good
    }
}

/// A status for each peer: Good or Down.
fn statuses_of(alloc: Global, good: &[bool]) -> Result<Vec<PeerStatus>, AllocError>
    ensures { IfOk result (λ statuses. statuses.items ≡ map (λ b. if b then is.Good else is.Down) good.now) }
{
    good.iter()
        .map(|good| if *good {
            PeerStatus::Good
        } else {
            PeerStatus::Down
        })
        .collect(alloc)
}

/// Of two peers with the lengths of their lists the one with the longer list, of equals the first.
fn longer(first: (u8, u64), other: Option<(u8, u64)>) -> (u8, u64)
    ensures { result ≡ longer first other }
{
    match other {
        Some(other) if other.1 > first.1 => other,
        _ => first,
    }
}

/// The shard that a peer keeps a copy of.
pub fn home_of(peer: u8, shape: Shape) -> u8
    requires shape { IsShape shape }
    requires peer { IsPeer shape peer }
    ensures home { result ≡ home_of shape peer }
    ensures shard { IsShard shape result }
{
    peer / shape.copies
}
