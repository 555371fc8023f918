//! A core of two shards with two copies, over blank disks.
ghost use Rattle.std.specs.Prelude.{◌≡◌, length, IfOk};

use hs_core::Core;
use hs_desk::CoreFault;
use hs_limits::{Limits, Shape};
use hs_shard::Catalogue;
use std::alloc::{AllocError, Global};

/// Two shards with two copies.
const SHAPE: Shape = Shape {
    shards: 2,
    copies: 2,
};

/// The core, which has proposed its first views.
pub fn opened(alloc: Global) -> Result<Core, CoreFault> {
    let limits = Limits::greatest();
    let logs = empty_logs(alloc, limits)?;
    let views = two_zeros(alloc)?;
    let lengths = two_zeros(alloc)?;
    let good = all_good(alloc)?;
    Core::open(alloc, SHAPE, limits, logs, views, lengths, good, 0)
}

/// The catalogues of both shards before their first entries.
fn empty_logs(alloc: Global, limits: Limits) -> Result<Vec<Catalogue>, AllocError>
    ensures { IfOk result (λ logs. length logs.items ≡ 2) }
{
    let mut logs = Vec::new(alloc);
    logs.push(Catalogue::new(alloc, SHAPE, 0, limits))?;
    logs.push(Catalogue::new(alloc, SHAPE, 1, limits))?;
    Ok(logs)
}

/// Zero for each shard.
fn two_zeros(alloc: Global) -> Result<Vec<u64>, AllocError>
    ensures { IfOk result (λ zeros. length zeros.items ≡ 2) }
{
    let mut zeros = Vec::new(alloc);
    zeros.extend_from_slice(&[0, 0])?;
    Ok(zeros)
}

/// All four peers are good.
fn all_good(alloc: Global) -> Result<Vec<bool>, AllocError>
    ensures { IfOk result (λ good. length good.items ≡ 4) }
{
    let mut good = Vec::new(alloc);
    good.extend_from_slice(&[true, true, true, true])?;
    Ok(good)
}
