//! Who leads each shard.
ghost use Rattle.std.specs.Prelude.{◌≡◌, length, map, slice_index_or, take, IfSome};
ghost use Rattle.hs_core_state.specs.Keeping.{IsOf};
ghost use Rattle.hs_core_words.specs.Looking.{group_of, lead_of, leads_of, oldest_message};
ghost use Rattle.hs_members.specs.Members.{IsPeer, IsShard, lead_by};
ghost use Rattle.hs_replica.specs.Group.{IsHome, no_copy};

use crate::State;
use hs_limits::{Shape, peer_of};
use hs_members::Members;
use hs_replica::Group;

impl State {
    /// The number of the oldest message for a peer. None exactly where there is none. It takes no
    /// memory.
    pub fn oldest_for(&self, peer: u8) -> Option<u64>
        requires { IsPeer self.now.members.shape peer }
        ensures { result ≡ oldest_message peer self.now }
    {
        let leads = self.leads();
        let shards = usize::from(self.shape().shards);
        self.pool.oldest_for(peer, &leads[..shards])
    }

    /// The leads of all shards, in order, and behind them no lead.
    #[tactic(auto, using(crate::proofs::LeadLemmas::eight_leads))]
    fn leads(&self) -> [Option<u8>; 8]
        ensures { take self.now.members.shape.shards result ≡ leads_of self.now }
    {
        let _shape = self.shape();
        [
            self.lead_at(0),
            self.lead_at(1),
            self.lead_at(2),
            self.lead_at(3),
            self.lead_at(4),
            self.lead_at(5),
            self.lead_at(6),
            self.lead_at(7),
        ]
    }

    /// The lead of a shard, and None where there is no such shard.
    fn lead_at(&self, shard: u8) -> Option<u8>
        ensures { IsShard self.now.members.shape shard → result ≡ lead_of shard self.now }
    {
        if shard >= self.shape().shards {
            return None;
        }
        self.lead(shard)
    }

    /// The lead of a shard. It takes no memory.
    pub fn lead(&self, shard: u8) -> Option<u8>
        requires { IsShard self.now.members.shape shard }
        ensures value { result ≡ lead_of shard self.now }
        ensures peer { IfSome result (IsPeer self.now.members.shape) }
        ensures home { IfSome result (IsHome (group_of shard self.now)) }
    {
        let _shape = self.shape();
        lead_of(&self.members, self.group(shard), shard)
    }
}

/// The lead of a shard, where this is its group. It takes no memory.
#[tactic(auto, using(crate::proofs::LeadLemmas::peer_within, crate::proofs::LeadLemmas::lead_home))]
pub(crate) fn lead_of(members: &Members, group: &Group, shard: u8) -> Option<u8>
    requires { IsOf members.now.shape shard group.now }
    ensures value { result
        ≡ lead_by shard (map (λ copy. length copy.stamps) group.now.copies) members.now }
    ensures peer { IfSome result (IsPeer members.now.shape) }
    ensures home { IfSome result (IsHome group.now) }
{
    let shape = members.shape();
    let lengths = lengths_of(group, shape, shard);
    members.lead(shard, &lengths[..usize::from(shape.copies)])
}

/// The lengths of the lists at a shard's copies, in order, and behind them 0.
#[tactic(auto, using(crate::proofs::LeadLemmas::four_lengths))]
fn lengths_of(group: &Group, shape: Shape, shard: u8) -> [u64; 4]
    requires of { IsOf shape shard group.now }
    ensures { take shape.copies result ≡ map (λ copy. length copy.stamps) group.now.copies }
{
    [
        length_at(group, shape, shard, 0),
        length_at(group, shape, shard, 1),
        length_at(group, shape, shard, 2),
        length_at(group, shape, shard, 3),
    ]
}

/// The length of the list at a copy, and 0 where there is no such copy.
fn length_at(group: &Group, shape: Shape, shard: u8, copy: u8) -> u64
    requires of { IsOf shape shard group.now }
    ensures { result ≡ length (slice_index_or group.now.copies copy no_copy).stamps }
{
    if copy >= shape.copies {
        return 0;
    }
    group.length(peer_of(shard, copy, shape))
}
