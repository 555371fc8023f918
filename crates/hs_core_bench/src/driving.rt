//! Turns of peers.
use crate::blocks::spelling;
use hs_core::Core;
use hs_core_words::Event;
use hs_desk::{CoreFault, Done, Job};
use std::alloc::{AllocError, Global};

/// Turns of a peer, and of the next one where `both` is told, until there is none.
pub fn drive(alloc: Global, core: &mut Core, peer: u8, both: bool) -> Result<(), CoreFault> {
    for _turn in 0..u32::MAX {
        if !any_turn(alloc, core, peer, both)? {
            break;
        }
    }
    Ok(())
}

/// The turn of a peer, else that of the next one where `both` is told. Whether there was one.
fn any_turn(alloc: Global, core: &mut Core, peer: u8, both: bool) -> Result<bool, CoreFault> {
    if turn(alloc, core, peer)? {
        return Ok(true);
    }
    if both {
        turn(alloc, core, peer.saturating_add(1))
    } else {
        Ok(false)
    }
}

/// The turn of a peer: its first job, else the oldest message for it. Whether there was one.
fn turn(alloc: Global, core: &mut Core, peer: u8) -> Result<bool, CoreFault> {
    if report(alloc, core, peer)? {
        return Ok(true);
    }
    deliver(core, peer)
}

/// The report of the first job of a peer. Whether there was one.
pub fn report(alloc: Global, core: &mut Core, peer: u8) -> Result<bool, CoreFault> {
    let Some(done) = next_done(alloc, core, peer)? else {
        return Ok(false);
    };
    let moment = core.last_moment();
    core.step(Event::Report { peer, done }, moment)?;
    Ok(true)
}

/// What the first job of a peer comes to. None where it has none.
fn next_done(alloc: Global, core: &Core, peer: u8) -> Result<Option<Done>, AllocError> {
    let shape = core.shape();
    if shape.shards != 2 || shape.copies != 2 || peer >= 4 {
        return Ok(None);
    }
    match core.first_job(peer) {
        Some(job) => Ok(Some(done_of(alloc, job)?)),
        None => Ok(None),
    }
}

/// The oldest message for a peer comes. Whether there was one.
pub fn deliver(core: &mut Core, peer: u8) -> Result<bool, CoreFault> {
    let Some(message) = next_message(core, peer) else {
        return Ok(false);
    };
    let moment = core.last_moment();
    let line = core.last_line();
    core.step(Event::Deliver { line, message }, moment)?;
    Ok(true)
}

/// The oldest message for a peer. None where there is none.
fn next_message(core: &Core, peer: u8) -> Option<u64> {
    let shape = core.shape();
    if shape.shards != 2 || shape.copies != 2 || peer >= 4 {
        return None;
    }
    core.oldest_for(peer)
}

/// What a job comes to.
fn done_of(alloc: Global, job: &Job) -> Result<Done, AllocError> {
    match job {
        Job::Append { number, .. } => Ok(Done::Stored { number: *number }),
        Job::Seal { number } => Ok(Done::Sealed { number: *number }),
        Job::Read { number } => read(alloc, *number),
        Job::Reset => Ok(Done::Emptied),
        Job::Copy { number, .. } => Ok(Done::Copied { number: *number }),
        Job::Reclaim => Ok(Done::Stepped { switched: true }),
    }
}

/// The bytes of an entry. That of number `n` is the entry of the block `n - 2`: the first is the view.
fn read(alloc: Global, number: u64) -> Result<Done, AllocError> {
    let block = number.saturating_sub(2).min(u64::from(u32::MAX)) as u32;
    let bytes = spelling(alloc, block)?;
    Ok(Done::Bytes { number, bytes })
}
