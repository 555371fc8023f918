//! A core in which nothing is under way.
ghost use Rattle.std.specs.Prelude.{◌≡◌, ◌*◌, [], None, length, map, replicate, slice_index, IfOk};
ghost use Rattle.std.specs.List.{range_with_len};
ghost use Rattle.hs_core_words.specs.Opening.{first_view, first_views, good_copies};
ghost use Rattle.hs_limits.specs.Shape.{IsShape};
ghost use Rattle.hs_members.specs.Members.{IsShard};
ghost use Rattle.hs_replica.specs.Group.{new_group};

use crate::no_memory::NoMemory;
use crate::queue::Queue;
use hs_desk::Job;
use hs_limits::{Shape, peer_of};
use hs_members::Members;
use hs_rejoin::Rejoin;
use hs_replica::Group;
use std::alloc::Global;

/// The first view of each shard: where it has a good peer, one above that of the taken log.
#[tactic(auto, using(crate::proofs::RangeLemmas::first_views_more))]
pub(crate) fn first_views(
    alloc: Global,
    members: &Members,
    views: &[u64],
) -> Result<Vec<u64>, NoMemory>
    requires { length views.now ≡ members.now.shape.shards }
    ensures { IfOk result (λ first. first.items ≡ first_views members.now views.now) }
{
    let mut first = Vec::new(alloc);
    for shard in 0..members.shape().shards {
        first.push(first_view(members, views, shard)?)?;
    }
    Ok(first)
}

/// The first view of a shard.
fn first_view(members: &Members, views: &[u64], shard: u8) -> Result<u64, NoMemory>
    requires shard { IsShard members.now.shape shard }
    requires views { length views.now ≡ members.now.shape.shards }
    ensures { IfOk result (λ first. first ≡ first_view members.now views.now shard) }
{
    let view = views[usize::from(shard)];
    if !members.has_good(shard) {
        return Ok(view);
    }
    match view.checked_add(1) {
        Some(next) => Ok(next),
        None => Err(NoMemory),
    }
}

/// The copies of each shard's list, of which the good ones have the taken log.
pub(crate) fn groups_of(
    alloc: Global,
    shape: Shape,
    views: &[u64],
    lengths: &[u64],
    good: &[bool],
) -> Result<Vec<Group>, NoMemory>
    requires shape { IsShape shape }
    requires views { length views.now ≡ shape.shards }
    requires lengths { length lengths.now ≡ shape.shards }
    requires good { length good.now ≡ shape.shards * shape.copies }
    ensures { IfOk result (λ groups. groups.items ≡ map (λ shard. new_group shape shard
        (slice_index views.now shard) (slice_index lengths.now shard)
        (good_copies shape good.now shard)) (range_with_len 0 shape.shards)) }
{
    let mut groups = Vec::new(alloc);
    for shard in 0..shape.shards {
        let view = views[usize::from(shard)];
        let length = lengths[usize::from(shard)];
        let copies = good_copies(shape, good, shard);
        groups.push(Group::new(alloc, shape, shard, view, length, copies)?)?;
    }
    Ok(groups)
}

/// Which copies of a shard are good.
fn good_copies(shape: Shape, good: &[bool], shard: u8) -> &[bool]
    requires shape { IsShape shape }
    requires good { length good.now ≡ shape.shards * shape.copies }
    requires shard { IsShard shape shard }
    ensures value { result.now ≡ good_copies shape good.now shard }
    ensures len { length result.now ≡ shape.copies }
{
    let first = usize::from(peer_of(shard, 0, shape));
    let (_before, rest) = good.split_at(first);
    rest.split_at(usize::from(shape.copies)).0
}

/// So many peers without a job.
#[tactic(auto, using(crate::proofs::RangeLemmas::replicate_more))]
pub(crate) fn no_tasks(alloc: Global, peers: u8) -> Result<Vec<Queue>, NoMemory>
    ensures { IfOk result (λ tasks. tasks.items ≡ replicate peers []) }
{
    let mut tasks = Vec::new(alloc);
    for _peer in 0..peers {
        tasks.push(Queue::new(alloc))?;
    }
    Ok(tasks)
}

/// So many peers of which none is joining.
#[tactic(auto, using(crate::proofs::RangeLemmas::replicate_more))]
pub(crate) fn no_rejoins(alloc: Global, peers: u8) -> Result<Vec<Option<Rejoin>>, NoMemory>
    ensures { IfOk result (λ rejoins. rejoins.items ≡ replicate peers None) }
{
    let mut rejoins = Vec::new(alloc);
    for _peer in 0..peers {
        rejoins.push(None)?;
    }
    Ok(rejoins)
}

/// So many peers without a copying step.
#[tactic(auto, using(crate::proofs::RangeLemmas::replicate_more))]
pub(crate) fn no_steps(alloc: Global, peers: u8) -> Result<Vec<Option<Job>>, NoMemory>
    ensures { IfOk result (λ steps. steps.items ≡ replicate peers None) }
{
    let mut steps = Vec::new(alloc);
    for _peer in 0..peers {
        steps.push(None)?;
    }
    Ok(steps)
}
