//! The next copying steps of a shard's peers, which are kept so that they can be lent.
ghost use Rattle.std.specs.Prelude.{◌≡◌, ◌*◌, length, IfSome};
ghost use Rattle.hs_core_state.specs.Keeping.{IsOf};
ghost use Rattle.hs_core_state.specs.Renewing.{Renews, lead_sealed, step_at};
ghost use Rattle.hs_members.specs.Members.{IsMembers, IsPeer};
ghost use Rattle.hs_replica.specs.Group.{IsHome};

use crate::leads::lead_of;
use hs_desk::Job;
use hs_limits::{PeerStatus, peer_of};
use hs_members::Members;
use hs_rejoin::Rejoin;
use hs_replica::Group;

/// Renews the steps of a shard's peers, where this is its group. It takes no memory.
pub(crate) fn renew_steps(
    steps: &mut Vec<Option<Job>>,
    members: &Members,
    group: &Group,
    rejoins: &[Option<Rejoin>],
    shard: u8,
)
    requires of { IsOf members.now.shape shard group.now }
    requires steps { length steps.old.items ≡ members.now.shape.shards * members.now.shape.copies }
    requires rejoins { length rejoins.now ≡ members.now.shape.shards * members.now.shape.copies }
    ensures renewed { Renews members.now group.now rejoins.now shard steps.old.items steps.new.items }
    ensures members { IsMembers members.now }
{
    let shape = members.shape();
    let lead = lead_of(members, group, shard);
    let sealed = sealed_by(group, lead);
    let first = peer_of(shard, 0, shape);
    let last = first + shape.copies;
    for peer in first..last {
        steps[usize::from(peer)] = step_at(members, lead, sealed, rejoins, peer);
    }
}

/// How many entries a lead has sealed, 0 where there is none.
fn sealed_by(group: &Group, lead: Option<u8>) -> u64
    requires { IfSome lead (IsHome group.now) }
    ensures { result ≡ lead_sealed lead group.now }
{
    match lead {
        Some(lead) => group.sealed(lead),
        None => 0,
    }
}

/// The next step of a peer, where this is its lead, which has sealed so many.
fn step_at(
    members: &Members,
    lead: Option<u8>,
    sealed: u64,
    rejoins: &[Option<Rejoin>],
    peer: u8,
) -> Option<Job>
    requires peer { IsPeer members.now.shape peer }
    requires rejoins { length rejoins.now ≡ members.now.shape.shards * members.now.shape.copies }
    ensures { result ≡ step_at members.now lead sealed rejoins.now peer }
{
    if members.status(peer) != PeerStatus::Joining {
        return None;
    }
    match (lead, &rejoins[usize::from(peer)]) {
        (Some(_lead), Some(rejoin)) => rejoin.next(sealed),
        _ => None,
    }
}
