//! The steps: the catalogue is filled, and runs delete.
use crate::filling::{drop_roots, fill};
use crate::plan::Plan;
use crate::running::run;
use hs_shard::{Catalogue, ShardFault};
use std::alloc::Global;

/// Does so many steps. How many blocks the runs removed.
pub fn do_steps(
    alloc: Global,
    catalogue: &mut Catalogue,
    plan: Plan,
    dropped: u32,
    steps: u32,
) -> Result<u32, ShardFault> {
    fill(alloc, catalogue, plan)?;
    do_runs(alloc, catalogue, dropped, steps)
}

/// Does the steps after the first. How many blocks they removed.
fn do_runs(
    alloc: Global,
    catalogue: &mut Catalogue,
    dropped: u32,
    steps: u32,
) -> Result<u32, ShardFault> {
    let mut removed = 0u32;
    for step in 2..steps.saturating_add(1).min(5) {
        let gone = do_run(alloc, catalogue, dropped, step)?;
        removed = removed.saturating_add(gone);
    }
    Ok(removed)
}

/// Does a step after the first: the third drops the roots of so many groups before its run.
fn do_run(
    alloc: Global,
    catalogue: &mut Catalogue,
    dropped: u32,
    step: u32,
) -> Result<u32, ShardFault> {
    if step == 3 {
        drop_roots(alloc, catalogue, dropped)?;
    }
    run(alloc, catalogue, u64::from(step))
}
