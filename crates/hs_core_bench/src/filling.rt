//! What is at rest while events are measured.
use crate::asking::{drop_key, forget, open, root, write};
use crate::driving::drive;
use hs_core::Core;
use hs_desk::CoreFault;
use std::alloc::Global;

/// How many sessions are open: as many as a run may have.
const SESSIONS: u32 = 64;

/// The lead of the shard in which operations rest.
const RESTING: u8 = 0;

/// The lead of the shard of the blocks, in which nothing rests.
pub const WORKING: u8 = 2;

/// Opens all sessions.
pub fn open_all(alloc: Global, core: &mut Core) -> Result<(), CoreFault> {
    for number in 0..SESSIONS {
        open(alloc, core, number)?;
    }
    Ok(())
}

/// Stores so many blocks, one after another. The client holds the first alone.
pub fn store(alloc: Global, core: &mut Core, blocks: u32) -> Result<(), CoreFault> {
    for block in 0..blocks {
        store_one(alloc, core, block)?;
    }
    Ok(())
}

/// Stores one of them, up to its answer: its handle has the same number.
fn store_one(alloc: Global, core: &mut Core, block: u32) -> Result<(), CoreFault> {
    write(alloc, core, block)?;
    drive(alloc, core, WORKING, true)?;
    if block == 0 {
        return Ok(());
    }
    forget(alloc, core, block)
}

/// Keeps the first block under the key.
pub fn keep(alloc: Global, core: &mut Core) -> Result<(), CoreFault> {
    root(alloc, core)?;
    drive(alloc, core, RESTING, true)
}

/// So many drops of the key: the lead has sealed their entries, and the messages to the other copy
/// rest, so that none of them is answered.
pub fn begin_drops(alloc: Global, core: &mut Core, drops: u32) -> Result<(), CoreFault> {
    for _drop in 0..drops {
        drop_key(alloc, core)?;
        drive(alloc, core, RESTING, false)?;
    }
    Ok(())
}
