//! What is told of a shard.
ghost use Rattle.std.specs.Prelude.{◌≡◌, ◌<◌, ◌==◌, ◌&&◌, count_by, is_none, slice_index, IfOk};
ghost use Rattle.hs_audit.specs.Text.{garbage_in};
ghost use Rattle.hs_limits.specs.Shape.{IsShape, shard_of, shard_of_key};
ghost use Rattle.hs_model.specs.Plain.{IsPlain, plain_of};
ghost use Rattle.hs_model.specs.Store.{blocks_in, roots_in};

use crate::AuditFault;
use crate::printing::ShardCounts;
use hs_limits::{Shape, shard_of, shard_of_key};
use hs_model::{PlainBlock, PlainRoot, PlainStore, unreachable};
use std::alloc::Global;

/// A shard's epoch, the last one that it swept, its blocks, its retained roots, and how many blocks
/// the sweep of its next run would remove. The last epoch of a u64, which has no next one, counts as
/// want of memory.
pub(crate) fn counts_of(
    alloc: Global,
    store: &PlainStore,
    shard: u8,
) -> Result<ShardCounts, AuditFault>
    requires plain { IsPlain store.now }
    requires shard { shard < store.now.shape.shards }
    ensures epoch { IfOk result (λ counts.
        counts.epoch ≡ slice_index (plain_of store.now).epochs shard) }
    ensures swept { IfOk result (λ counts.
        counts.swept ≡ slice_index (plain_of store.now).swept shard) }
    ensures blocks { IfOk result (λ counts. counts.blocks ≡ blocks_in (plain_of store.now) shard) }
    ensures roots { IfOk result (λ counts. counts.roots ≡ roots_in (plain_of store.now) shard) }
    ensures garbage { IfOk result (λ counts.
        counts.garbage ≡ garbage_in (plain_of store.now) shard) }
{
    let place = usize::from(shard);
    let epoch = store.epochs.as_slice()[place];
    let swept = store.swept.as_slice()[place];
    let Some(run) = epoch.checked_add(1) else {
        return Err(AuditFault::NoMemory);
    };
    let garbage = unreachable(alloc, store, run, shard)?;
    Ok(ShardCounts {
        epoch,
        swept,
        blocks: blocks_in(store.blocks.as_slice(), store.shape, shard),
        roots: roots_in(store.roots.as_slice(), store.shape, shard),
        garbage: garbage.as_slice().len(),
    })
}

/// How many of some blocks are of a shard.
fn blocks_in(blocks: &[PlainBlock], shape: Shape, shard: u8) -> usize
    requires { IsShape shape }
    ensures { result ≡ count_by (λ block. shard_of shape.shards block.address == shard) blocks.now }
{
    blocks
        .iter()
        .filter(|block| shard_of(&block.address, shape) == shard)
        .count()
}

/// How many of some roots are not dropped, and of a shard.
fn roots_in(roots: &[PlainRoot], shape: Shape, shard: u8) -> usize
    requires { IsShape shape }
    ensures { result ≡ count_by (λ root. is_none root.dropped
        && shard_of_key shape.shards root.key == shard) roots.now }
{
    roots
        .iter()
        .filter(|root| is_kept_in(root, shape, shard))
        .count()
}

/// Whether a root is not dropped, and of a shard.
fn is_kept_in(root: &PlainRoot, shape: Shape, shard: u8) -> bool
    requires { IsShape shape }
    ensures { result ≡ (is_none root.now.dropped
        && shard_of_key shape.shards root.now.key == shard) }
{
    root.dropped.is_none() && shard_of_key(&root.key, shape) == shard
}
