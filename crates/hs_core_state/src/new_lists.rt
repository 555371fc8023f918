//! The lists of all shards before the first view begins.
ghost use Rattle.std.specs.Prelude.{◌≡◌, ◌*◌, [], false, length, map, replicate, slice_index, IfOk};
ghost use Rattle.std.specs.List.{range_with_len};
ghost use Rattle.hs_core_state.specs.Anew.{AreOfAll};
ghost use Rattle.hs_core_words.specs.Opening.{first_views, good_copies};
ghost use Rattle.hs_limits.specs.Shape.{IsShape};
ghost use Rattle.hs_members.specs.Members.{members_at};
ghost use Rattle.hs_post.specs.Pool.{empty_pool};
ghost use Rattle.hs_replica.specs.Group.{new_group};

use crate::lists::Lists;
use crate::new_core::{first_views, groups_of, no_tasks};
use crate::no_memory::NoMemory;
use hs_limits::Shape;
use hs_members::Members;
use hs_post::Pool;
use std::alloc::Global;

/// The lists as the taken logs have them, all of them sealed and in effect, and nothing under way.
/// The members are in their first views.
#[tactic(auto, using(crate::proofs::OpenLemmas::new_of_all))]
pub(crate) fn new_lists(
    alloc: Global,
    shape: Shape,
    pool: u32,
    views: &[u64],
    lengths: Vec<u64>,
    good: &[bool],
) -> Result<Lists, NoMemory>
    requires shape { IsShape shape }
    requires views { length views.now ≡ shape.shards }
    requires lengths { length lengths.items ≡ shape.shards }
    requires good { length good.now ≡ shape.shards * shape.copies }

    ensures members { IfOk result (λ lists. lists.members ≡ members_at shape
        (first_views (members_at shape views.now good.now) views.now) good.now) }
    ensures groups { IfOk result (λ lists. lists.groups.items ≡ map (λ shard. new_group shape shard
        (slice_index views.now shard) (slice_index lengths.items shard)
        (good_copies shape good.now shard)) (range_with_len 0 shape.shards)) }
    ensures viewed { IfOk result (λ lists. lists.viewed.items ≡ replicate shape.shards false) }
    ensures pool { IfOk result (λ lists. lists.pool ≡ empty_pool pool) }
    ensures tasks { IfOk result
        (λ lists. lists.tasks.items ≡ replicate (shape.shards * shape.copies) []) }
    ensures all { IfOk result AreOfAll }
{
    let taken = Members::new(alloc, shape, views, good)?;
    let first = first_views(alloc, &taken, views)?;
    let groups = groups_of(alloc, shape, views, lengths.as_slice(), good)?;
    Ok(Lists {
        members: Members::new(alloc, shape, first.as_slice(), good)?,
        groups,
        fronts: lengths,
        viewed: vec![in alloc; false; usize::from(shape.shards)]?,
        pool: Pool::new(alloc, pool),
        tasks: no_tasks(alloc, shape.shards * shape.copies)?,
    })
}
