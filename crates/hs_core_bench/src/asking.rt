//! Lines of clients.
use crate::blocks::{address_of, data, key, session};
use hs_core::Core;
use hs_core_words::Event;
use hs_desk::CoreFault;
use hs_limits::{Key, ListOf, Name};
use hs_model::Op;
use std::alloc::Global;

/// The session that writes and reads.
const CLIENT: u32 = 0;

/// Asks for an operation, in the next line.
pub fn ask(core: &mut Core, op: Op) -> Result<(), CoreFault> {
    let moment = core.last_moment();
    match core.last_line().checked_add(1) {
        Some(line) => core.step(Event::Line { line, op }, moment),
        None => Err(CoreFault::NoMemory),
    }
}

/// Opens the session of a number.
pub fn open(alloc: Global, core: &mut Core, number: u32) -> Result<(), CoreFault> {
    let session = name(alloc, number)?;
    ask(core, Op::Open { session })
}

/// Writes a block.
pub fn write(alloc: Global, core: &mut Core, block: u32) -> Result<(), CoreFault> {
    let op = Op::Write {
        session: name(alloc, CLIENT)?,
        payload: data(alloc, block)?,
        handles: ListOf::new(alloc),
        address: Some(address_of(block)),
    };
    ask(core, op)
}

/// Reads the block of the first handle.
pub fn read(alloc: Global, core: &mut Core) -> Result<(), CoreFault> {
    let op = Op::Read {
        session: name(alloc, CLIENT)?,
        handle: 0,
    };
    ask(core, op)
}

/// Asks for the address of the first handle.
pub fn address(alloc: Global, core: &mut Core) -> Result<(), CoreFault> {
    let op = Op::Name {
        session: name(alloc, CLIENT)?,
        handle: 0,
    };
    ask(core, op)
}

/// Gives a handle up.
pub fn forget(alloc: Global, core: &mut Core, handle: u32) -> Result<(), CoreFault> {
    let op = Op::Forget {
        session: name(alloc, CLIENT)?,
        handle,
    };
    ask(core, op)
}

/// Keeps the block of the first handle under the key.
pub fn root(alloc: Global, core: &mut Core) -> Result<(), CoreFault> {
    let op = Op::Root {
        session: name(alloc, CLIENT)?,
        key: the_key(alloc)?,
        handle: 0,
    };
    ask(core, op)
}

/// Gives the key up.
pub fn drop_key(alloc: Global, core: &mut Core) -> Result<(), CoreFault> {
    let key = the_key(alloc)?;
    ask(core, Op::Drop { key })
}

/// The name of the session of a number.
fn name(alloc: Global, number: u32) -> Result<Name, CoreFault> {
    match session(alloc, number)? {
        Some(name) => Ok(name),
        None => Err(CoreFault::NoMemory),
    }
}

/// The key.
fn the_key(alloc: Global) -> Result<Key, CoreFault> {
    match key(alloc)? {
        Some(key) => Ok(key),
        None => Err(CoreFault::NoMemory),
    }
}
