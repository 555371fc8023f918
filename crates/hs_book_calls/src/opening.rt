//! Cores over blank disks.
ghost use Rattle.std.specs.Prelude.{◌≡◌, IfOk, length};
ghost use Rattle.hs_limits.specs.Shape.{IsShape};

use hs_core::Core;
use hs_desk::CoreFault;
use hs_limits::{Limits, Shape};
use hs_shard::Catalogue;
use std::alloc::{AllocError, Global};

/// Two shards of one copy, and of two.
const ALONE: Shape = Shape {
    shards: 2,
    copies: 1,
};

const IN_PAIRS: Shape = Shape {
    shards: 2,
    copies: 2,
};

/// A vector of two items.
fn two<T: Drop>(alloc: Global, first: T, second: T) -> Result<Vec<T>, AllocError>
    ensures { IfOk result (λ items. length items.items ≡ 2) }
{
    let mut items = Vec::new(alloc);
    items.push(first)?;
    items.push(second)?;
    Ok(items)
}

/// So many good peers.
fn all_good(alloc: Global, peers: u8) -> Result<Vec<bool>, AllocError>
    ensures { IfOk result (λ good. length good.items ≡ peers) }
{
    let mut good = Vec::new(alloc);
    for _peer in 0..peers {
        good.push(true)?;
    }
    Ok(good)
}

/// A core of two shards that opens over blank disks, all of whose peers are good.
fn opened(alloc: Global, shape: Shape) -> Result<Core, CoreFault>
    requires valid { IsShape shape }
    requires shards { shape.shards ≡ 2 }
{
    let limits = Limits::greatest();
    let logs = two(
        alloc,
        Catalogue::new(alloc, shape, 0, limits),
        Catalogue::new(alloc, shape, 1, limits),
    )?;
    let views = two(alloc, 0, 0)?;
    let lengths = two(alloc, 0, 0)?;
    let good = all_good(alloc, 2 * shape.copies)?;
    Core::open(alloc, shape, limits, logs, views, lengths, good, 0)
}

/// One of two shards of one copy.
pub(crate) fn opened_alone(alloc: Global) -> Result<Core, CoreFault> {
    opened(alloc, ALONE)
}

/// One of two shards of two copies.
pub(crate) fn opened_in_pairs(alloc: Global) -> Result<Core, CoreFault> {
    opened(alloc, IN_PAIRS)
}
