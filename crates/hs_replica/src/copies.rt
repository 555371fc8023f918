//! The copies of a list at the beginning, and in a new view.
ghost use Rattle.std.specs.Prelude.{◌≡◌, ◌+◌, ◌*◌, ◌≤◌, length, map, IfOk, if◌then◌else◌};
ghost use Rattle.hs_limits.specs.Shape.{IsShape};
ghost use Rattle.hs_members.specs.Members.{IsPeer, is_good_status, status};
ghost use Rattle.hs_replica.specs.Group.{no_copy, tell_from, whole_copy};

use crate::GroupFault;
use crate::replica::Replica;
use crate::stamps::Stamps;
use hs_limits::PeerStatus;
use hs_members::Members;
use std::alloc::Global;

/// Copies that have so many entries of this view where `good` says so, and else none.
pub(crate) fn copies_of(
    alloc: Global,
    view: u64,
    len: u64,
    good: &[bool],
) -> Result<Vec<Replica>, GroupFault>
    ensures { IfOk result (λ copies. copies.items ≡ map (λ b. if b then whole_copy view len else no_copy) good.now) }
{
    let mut copies = Vec::new(alloc);
    for good in good.iter() {
        copies.push(copy_at(alloc, view, len, *good)?)?;
    }
    Ok(copies)
}

/// A copy that has so many entries of this view where it is good, and else none.
fn copy_at(alloc: Global, view: u64, len: u64, good: bool) -> Result<Replica, GroupFault>
    ensures { IfOk result (λ copy. copy ≡ (if good then whole_copy view len else no_copy)) }
{
    let count = if good { len } else { 0 };
    Ok(Replica {
        good,
        stamps: Stamps::all_of(alloc, view, count)?,
        sealed: count,
        known: count,
    })
}

/// Each copy is good as the members say, and of a good one is known all that it has sealed.
#[tactic(auto, using(crate::proofs::TellLemmas::tell_next, crate::proofs::TellLemmas::all_told))]
pub(crate) fn tell_copies(copies: &mut Vec<Replica>, first: u8, members: &Members)
    requires shape { IsShape members.now.shape }
    requires peers { first + length copies.old.items ≤ members.now.shape.shards * members.now.shape.copies }
    ensures told { copies.new.items ≡ tell_from members.now first copies.old.items }
    ensures len { length copies.new.items ≡ length copies.old.items }
{
    for index in 0..copies.len() {
        copies[index].tell(is_good(members, first + index as u8));
    }
}

/// Whether a peer is good.
fn is_good(members: &Members, peer: u8) -> bool
    requires { IsPeer members.now.shape peer }
    ensures { result ≡ is_good_status (status peer members.now) }
{
    members.status(peer) == PeerStatus::Good
}
