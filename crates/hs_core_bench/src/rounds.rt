//! The events that are measured.
use crate::asking::{address, ask, forget, read, write};
use crate::driving::{deliver, report};
use crate::filling::WORKING;
use hs_core::Core;
use hs_core_words::Event;
use hs_desk::CoreFault;
use hs_model::Op;
use std::alloc::Global;

/// How many events a round has.
pub const EVENTS: u32 = 15;

/// The other copy of the shard of the blocks.
const OTHER: u8 = 3;

/// So many rounds, where so many handles were given. What rests is the same behind each.
pub fn do_rounds(alloc: Global, core: &mut Core, given: u32, rounds: u32) -> Result<(), CoreFault> {
    for round in 0..rounds {
        read_block(alloc, core)?;
        look(alloc, core)?;
        write_again(alloc, core)?;
        forget(alloc, core, given.saturating_add(round))?;
    }
    Ok(())
}

/// A block is read: its line, a second line of that session, which finds it busy, and the report of
/// its bytes.
fn read_block(alloc: Global, core: &mut Core) -> Result<(), CoreFault> {
    read(alloc, core)?;
    address(alloc, core)?;
    report(alloc, core, WORKING)?;
    Ok(())
}

/// Three events that are answered at once, or by nothing: a handle's name, the store's state, and a
/// turn that is asked for.
fn look(alloc: Global, core: &mut Core) -> Result<(), CoreFault> {
    address(alloc, core)?;
    ask(core, Op::Stat)?;
    let moment = core.last_moment();
    let line = core.last_line();
    core.step(
        Event::Turn {
            line,
            peer: WORKING,
        },
        moment,
    )
}

/// A block that is there is written: its line, the report of the bytes that are compared, those of
/// its entry's Append and Seal at the lead, the message to the other copy, the same reports there,
/// and the message back, which brings the answer.
fn write_again(alloc: Global, core: &mut Core) -> Result<(), CoreFault> {
    write(alloc, core, 0)?;
    report(alloc, core, WORKING)?;
    report(alloc, core, WORKING)?;
    report(alloc, core, WORKING)?;
    deliver(core, OTHER)?;
    report(alloc, core, OTHER)?;
    report(alloc, core, OTHER)?;
    deliver(core, WORKING)?;
    Ok(())
}
