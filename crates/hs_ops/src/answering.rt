//! What an answer did: its deed, and what its handles stand for.
ghost use Rattle.std.specs.Prelude.{◌≡◌, ◌∷◌, [], IfOk};
ghost use Rattle.hs_model.specs.declared.deed.Deed.TheVariants.{ReadBlock};
ghost use Rattle.hs_model.specs.Judge.{asked_of, given_address, written_deed};
ghost use Rattle.hs_model.specs.Store.{helds_of};
ghost use Rattle.hs_ops.specs.Answers.{deed_of, done_deed, gained, handle_in, handles_in, is_done, is_dup};
ghost use Rattle.hs_ops.specs.Speaking.{asked_pointers};
ghost use Rattle.hs_tokens.specs.Seats.{found};

use crate::entries::addresses_of;
use crate::view::nothing;
use crate::{OpFault, OpView};
use hs_limits::{Address, Held, ListOf, Name};
use hs_model::{Asked, Deed, Op, Reply, given_address};
use hs_tokens::{Sessions, SessionsView};
use std::alloc::Global;

/// What the handles of an operation's reply stand for, where it is not refused: of a read each of
/// these pointers, those of the block that it read.
#[tactic(auto, unfolding(crate::specs::Answers::gained))]
pub(crate) fn gained(
    view: &OpView,
    alloc: Global,
    pointers: &[Address],
    op: &Op,
) -> Result<ListOf<Held>, OpFault>
    ensures { IfOk result (λ helds. helds ≡ gained view.now pointers.now op.now) }
{
    match op {
        Op::Open { .. } => Ok(ListOf::new(alloc)),
        Op::Close { .. } => Ok(ListOf::new(alloc)),
        Op::Write { address, .. } => one(alloc, given_address(*address), view.now()),
        Op::Read { session, handle } => {
            helds_of(alloc, pointers, view.found(session, *handle).epoch)
        }
        Op::Look { key, .. } => one(alloc, view.root_address(key), view.now()),
        Op::Root { .. } => Ok(ListOf::new(alloc)),
        Op::Drop { .. } => Ok(ListOf::new(alloc)),
        Op::Forget { .. } => Ok(ListOf::new(alloc)),
        Op::Name { .. } => Ok(ListOf::new(alloc)),
        Op::Delete => Ok(ListOf::new(alloc)),
        Op::Stat => Ok(ListOf::new(alloc)),
    }
}

/// One address, held in an epoch.
fn one(alloc: Global, address: Address, epoch: u64) -> Result<ListOf<Held>, OpFault>
    ensures { IfOk result (λ helds. helds ≡ record { address = address; epoch = epoch } ∷ []) }
{
    let mut helds = ListOf::new(alloc);
    helds.push(Held { address, epoch })?;
    Ok(helds)
}

/// Some addresses, all held in one epoch.
#[tactic(auto, unfolding(hs_model::specs::Store::helds_of))]
fn helds_of(alloc: Global, addresses: &[Address], epoch: u64) -> Result<ListOf<Held>, OpFault>
    ensures { IfOk result (λ helds. helds ≡ helds_of addresses.now epoch) }
{
    let mut helds = ListOf::new(alloc);
    for address in addresses {
        helds.push(Held {
            address: *address,
            epoch,
        })?;
    }
    Ok(helds)
}

/// The deed of an operation that got a reply.
#[tactic(auto, unfolding(crate::specs::Answers::deed_of))]
pub(crate) fn deed_of(
    alloc: Global,
    sessions: &Sessions,
    op: Op,
    reply: &Reply,
) -> Result<Deed, OpFault>
    ensures { IfOk result (λ deed. deed ≡ deed_of sessions.now.seats op reply.now) }
{
    if !is_done(reply) {
        return Ok(Deed::Refused {
            asked: asked_of(op),
        });
    }
    done_deed(alloc, sessions, op, reply)
}

/// The deed of an operation that was not refused.
fn done_deed(alloc: Global, sessions: &Sessions, op: Op, reply: &Reply) -> Result<Deed, OpFault>
    ensures { IfOk result (λ deed. deed ≡ done_deed sessions.now.seats op reply.now) }
{
    match op {
        Op::Open { session } => Ok(Deed::Opened { session }),
        Op::Close { session } => Ok(Deed::Closed { session }),
        Op::Write {
            session,
            payload: _,
            handles,
            address,
        } => write_deed(alloc, sessions, session, handles, address, reply),
        Op::Read { session, handle } => read_deed(alloc, sessions, session, handle, reply),
        Op::Look { session, key } => Ok(Deed::Looked {
            session,
            key,
            handle: handle_in(reply),
        }),
        Op::Root {
            session,
            key,
            handle,
        } => {
            let held = held_by(sessions, &session, handle);
            Ok(Deed::Rooted {
                key,
                address: held.address,
            })
        }
        Op::Drop { key } => Ok(Deed::Dropped { key }),
        Op::Forget { session, handle } => Ok(Deed::Forgot { session, handle }),
        Op::Name { .. } => Ok(Deed::Nothing),
        Op::Delete => Ok(Deed::Entered { shard: 0 }),
        Op::Stat => Ok(Deed::Nothing),
    }
}

/// The deed of a write that was not refused.
fn write_deed(
    alloc: Global,
    sessions: &Sessions,
    session: Name,
    handles: ListOf<u32>,
    address: Option<Address>,
    reply: &Reply,
) -> Result<Deed, OpFault>
    ensures { IfOk result (λ deed. deed ≡ written_deed (is_dup reply.now) session
        (given_address address) (asked_pointers sessions.now.seats session handles)
        (handle_in reply.now)) }
{
    let address = given_address(address);
    let handle = handle_in(reply);
    if is_dup(reply) {
        return Ok(Deed::Marked {
            session,
            address,
            handle,
        });
    }
    let sessions = SessionsView::new(sessions, Some(&session));
    let pointers = addresses_of(alloc, &sessions, &session, handles.as_slice())?;
    Ok(Deed::Wrote {
        session,
        address,
        pointers,
        handle,
    })
}

/// The deed of a read that was not refused.
fn read_deed(
    alloc: Global,
    sessions: &Sessions,
    session: Name,
    handle: u32,
    reply: &Reply,
) -> Result<Deed, OpFault>
    ensures { IfOk result (λ deed. deed ≡ ReadBlock session
        (found sessions.now.seats session handle).address
        (found sessions.now.seats session handle).epoch (handles_in reply.now)) }
{
    let held = held_by(sessions, &session, handle);
    let handles = handles_in(alloc, reply)?;
    Ok(Deed::ReadBlock {
        session,
        address: held.address,
        epoch: held.epoch,
        handles,
    })
}

/// What a handle of a session stands for, and the zero address in epoch 0 where it is not held.
fn held_by(sessions: &Sessions, session: &Name, handle: u32) -> Held
    ensures { result ≡ found sessions.now.seats session.now handle }
{
    sessions.find(session, handle).unwrap_or(nothing())
}

/// An operation as it is told where it was refused.
fn asked_of(op: Op) -> Asked
    ensures { result ≡ asked_of op }
{
    match op {
        Op::Open { session } => Asked::Open { session },
        Op::Close { session } => Asked::Close { session },
        Op::Write {
            session,
            payload,
            handles,
            address,
        } => Asked::Write {
            session,
            length: payload.len() as u64,
            handles,
            address,
        },
        Op::Read { session, handle } => Asked::Read { session, handle },
        Op::Look { session, key } => Asked::Look { session, key },
        Op::Root {
            session,
            key,
            handle,
        } => Asked::Root {
            session,
            key,
            handle,
        },
        Op::Drop { key } => Asked::Drop { key },
        Op::Forget { session, handle } => Asked::Forget { session, handle },
        Op::Name { session, handle } => Asked::Name { session, handle },
        Op::Delete => Asked::Delete,
        Op::Stat => Asked::Stat,
    }
}

/// Whether a reply answers what was done.
fn is_done(reply: &Reply) -> bool
    ensures { result ≡ is_done reply.now }
{
    match reply {
        Reply::Ok => true,
        Reply::New { .. } => true,
        Reply::Dup { .. } => true,
        Reply::Bytes { .. } => true,
        Reply::Held { .. } => true,
        Reply::Name { .. } => true,
        Reply::Stat { .. } => true,
        Reply::Run { .. } => true,
        _ => false,
    }
}

/// Whether a write's block was there already.
fn is_dup(reply: &Reply) -> bool
    ensures { result ≡ is_dup reply.now }
{
    match reply {
        Reply::Dup { .. } => true,
        _ => false,
    }
}

/// The first handle that a reply gives, 0 where it gives none.
fn handle_in(reply: &Reply) -> u32
    ensures { result ≡ handle_in reply.now }
{
    match reply {
        Reply::New { handle, .. } => *handle,
        Reply::Dup { handle, .. } => *handle,
        Reply::Held { handle, .. } => *handle,
        Reply::Bytes { handles, .. } => handles.as_slice().first().copied().unwrap_or(0),
        _ => 0,
    }
}

/// The handles that a reply gives.
fn handles_in(alloc: Global, reply: &Reply) -> Result<ListOf<u32>, OpFault>
    ensures { IfOk result (λ handles. handles ≡ handles_in reply.now) }
{
    match reply {
        Reply::New { handle, .. } => one_handle(alloc, *handle),
        Reply::Dup { handle, .. } => one_handle(alloc, *handle),
        Reply::Held { handle, .. } => one_handle(alloc, *handle),
        Reply::Bytes { handles, .. } => Ok(handles.copy(alloc)?),
        _ => Ok(ListOf::new(alloc)),
    }
}

/// One handle.
fn one_handle(alloc: Global, handle: u32) -> Result<ListOf<u32>, OpFault>
    ensures { IfOk result (λ handles. handles ≡ handle ∷ []) }
{
    let mut handles = ListOf::new(alloc);
    handles.push(handle)?;
    Ok(handles)
}
