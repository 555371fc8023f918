//! Rounds that were sent.
ghost use Rattle.std.specs.Prelude.{◌≡◌, ◌==◌, IfOk, filter};
ghost use Rattle.hs_limits.specs.Shape.{IsShape, shard_of};
ghost use Rattle.hs_rounds.specs.Changes.{changes_for};
ghost use Rattle.hs_rounds.specs.Rounds.{bodies_for};

use crate::RoundBody;
use hs_limits::{Delta, Limits, ListOf, Shape, shard_of};
use std::alloc::{AllocError, Global};

/// A round that was sent: for each shard what it was told.
#[derive(Debug, Drop)]
pub struct SentRound {
    pub epoch: u64,
    pub round: u32,
    pub bodies: ListOf<RoundBody>,
}

/// What a round with these changes tells each shard.
pub(crate) fn bodies_for(
    alloc: Global,
    shape: Shape,
    total: u32,
    deltas: &[Delta],
) -> Result<ListOf<RoundBody>, AllocError>
    requires { IsShape shape }
    ensures { IfOk result (λ bodies. bodies ≡ bodies_for shape.shards total deltas.now) }
{
    let mut bodies = ListOf::new(alloc);
    for to in 0..shape.shards {
        let deltas = changes_for(alloc, shape, deltas, to)?;
        bodies.push(RoundBody { total, deltas })?;
    }
    Ok(bodies)
}

/// The changes of a shard's blocks, as many as it may have blocks.
fn changes_for(
    alloc: Global,
    shape: Shape,
    deltas: &[Delta],
    to: u8,
) -> Result<ListOf<Delta>, AllocError>
    requires { IsShape shape }
    ensures { IfOk result (λ changes. changes ≡ changes_for shape.shards deltas.now to) }
{
    let most = Limits::greatest().blocks as usize;
    let mut changes = all_for(alloc, shape, deltas, to)?;
    changes.truncate(most);
    Ok(ListOf::from_vec(changes))
}

/// The changes of a shard's blocks.
fn all_for(alloc: Global, shape: Shape, deltas: &[Delta], to: u8) -> Result<Vec<Delta>, AllocError>
    requires { IsShape shape }
    ensures { IfOk result (λ changes. changes.items
        ≡ filter (λ delta. shard_of shape.shards delta.address == to) deltas.now) }
{
    deltas
        .iter()
        .filter(|delta| shard_of(&delta.address, shape) == to)
        .copied()
        .collect(alloc)
}
