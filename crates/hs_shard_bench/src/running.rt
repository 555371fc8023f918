//! Deletion runs of the only shard, which tells itself its rounds.
use crate::taking::take;
use hs_entry::Entry;
use hs_rounds::RoundBody;
use hs_shard::{Catalogue, ShardFault};
use std::alloc::Global;

/// The run of an epoch, from its Enter to its sweep. How many blocks went.
pub fn run(alloc: Global, catalogue: &mut Catalogue, epoch: u64) -> Result<u32, ShardFault> {
    take(catalogue, 0, Entry::Enter { op: 1, epoch }, None)?;
    get_all(alloc, catalogue)
}

/// The rounds of the run come, one after another. How many blocks went.
fn get_all(alloc: Global, catalogue: &mut Catalogue) -> Result<u32, ShardFault> {
    let mut removed = 0u32;
    for _ in 0..u32::MAX {
        match get_next(alloc, catalogue)? {
            Some(gone) => removed = removed.saturating_add(gone),
            None => break,
        }
    }
    Ok(removed)
}

/// The open round comes. How many blocks went; None where no round is open.
fn get_next(alloc: Global, catalogue: &mut Catalogue) -> Result<Option<u32>, ShardFault> {
    match catalogue.run().open_round() {
        Some((epoch, round)) => get(alloc, catalogue, epoch, round),
        None => Ok(None),
    }
}

/// A round that the shard sent comes. How many blocks went; None where it sent no such round.
fn get(
    alloc: Global,
    catalogue: &mut Catalogue,
    epoch: u64,
    round: u32,
) -> Result<Option<u32>, ShardFault> {
    let Some(body) = catalogue.run().outgoing(epoch, round, 0) else {
        return Ok(None);
    };
    let RoundBody { total, deltas } = body.copy(alloc)?;
    let entry = Entry::Got {
        sender: 0,
        epoch,
        round,
        total,
        deltas,
    };
    let removed = take(catalogue, 0, entry, None)?;
    Ok(Some(removed.unwrap_or(0)))
}
