//! A write comes with the address of its block.
ghost use Rattle.std.specs.Prelude.{◌≡◌, is_some, IfOk};
ghost use Rattle.std.specs.List.{list_all};
ghost use Rattle.hs_events.specs.Asked.{address_for, addressed};
ghost use Rattle.hs_ops.specs.Speaking.{asked_pointers};
ghost use Rattle.hs_tokens.specs.Seats.{found, held_at, seat_of};

use crate::NoMemory;
use hs_block::{Addresser, write_head};
use hs_core::Core;
use hs_limits::{Address, ListOf, MOST_BYTES, MOST_POINTERS, Name};
use hs_model::Op;
use std::alloc::Global;

/// The operation with the address of its block, where it is a write that has one.
pub fn addressed<A: Addresser>(
    alloc: Global,
    core: &Core,
    naming: &A,
    op: Op,
) -> Result<Op, NoMemory>
    ensures ok { IfOk result (λ found. found
        ≡ addressed (A.name naming.now) core.now.sessions op) }
{
    match op {
        Op::Write {
            session,
            payload,
            handles,
            address: _,
        } => {
            let address = address_of(
                alloc,
                core,
                naming,
                &session,
                payload.as_slice(),
                handles.as_slice(),
            )?;
            Ok(Op::Write {
                session,
                payload,
                handles,
                address,
            })
        }
        other => Ok(other),
    }
}

/// The address of the block that a write asks for, where it has one. The payload is not copied.
fn address_of<A: Addresser>(
    alloc: Global,
    core: &Core,
    naming: &A,
    session: &Name,
    payload: &[u8],
    handles: &[u32],
) -> Result<Option<Address>, NoMemory>
    ensures ok { IfOk result (λ address. address ≡ address_for (A.name naming.now)
        core.now.sessions session.now payload.now handles.now) }
{
    if handles.len() > MOST_POINTERS || payload.len() > MOST_BYTES {
        return Ok(None);
    }
    if !are_held(core, session, handles) {
        return Ok(None);
    }
    let pointers = pointers_of(alloc, core, session, handles)?;
    let mut head = Vec::new(alloc);
    match write_head(pointers.as_slice(), payload.len(), &mut head) {
        Ok(()) => Ok(Some(naming.address_of_parts(head.as_slice(), payload))),
        Err(_) => Err(NoMemory),
    }
}

/// Whether a session holds each of some handles.
fn are_held(core: &Core, session: &Name, handles: &[u32]) -> bool
    ensures { result ≡ list_all (λ handle.
        is_some (held_at (seat_of session.now core.now.sessions) handle)) handles.now }
{
    handles
        .iter()
        .all(|handle| core.held(session, *handle).is_some())
}

/// What handles that a session holds point to.
fn pointers_of(
    alloc: Global,
    core: &Core,
    session: &Name,
    handles: &[u32],
) -> Result<ListOf<Address>, NoMemory>
    ensures ok { IfOk result (λ pointers. pointers
        ≡ asked_pointers core.now.sessions session.now handles.now) }
{
    let mut pointers = ListOf::new(alloc);
    for handle in handles {
        pointers.push(pointer_of(core, session, *handle))?;
    }
    Ok(pointers)
}

/// What a handle points to, the address of zeros where it is not held.
fn pointer_of(core: &Core, session: &Name, handle: u32) -> Address
    ensures { result ≡ (found core.now.sessions session.now handle).address }
{
    match core.held(session, handle) {
        Some(held) => held.address,
        None => Address([0; 32]),
    }
}
