//! What an answer did.
ghost use Rattle.std.specs.Prelude.{◌≡◌, IfOk, map};
ghost use Rattle.hs_model.specs.Deed.{address_in, deed_of, held_by};
ghost use Rattle.hs_model.specs.Judge.{given_address};

use crate::{Asked, Deed, ModelFault, Reply};
use hs_limits::{Address, Held, ListOf};
use std::alloc::Global;

/// The deed of an operation with a reply, where the client holds these: handle n is place n.
#[tactic(auto, unfolding(crate::specs::Deed::deed_of))]
pub fn deed_of(
    alloc: Global,
    held: &[Held],
    asked: &Asked,
    reply: &Reply,
) -> Result<Deed, ModelFault>
    ensures { IfOk result (λ deed. deed ≡ deed_of held.now asked.now reply.now) }
{
    match (asked, reply) {
        (_, Reply::Ok) => deed_of_ok(alloc, held, asked),
        (
            Asked::Write {
                session,
                handles,
                address,
                ..
            },
            Reply::New { handle, .. },
        ) => Ok(Deed::Wrote {
            session: session.copy(alloc)?,
            address: given_address(*address),
            pointers: addresses_in(alloc, held, handles.as_slice())?,
            handle: *handle,
        }),
        (
            Asked::Write {
                session,
                address,
                ..
            },
            Reply::Dup { handle, .. },
        ) => Ok(Deed::Marked {
            session: session.copy(alloc)?,
            address: given_address(*address),
            handle: *handle,
        }),
        (Asked::Read { session, handle }, Reply::Bytes { handles, .. }) => Ok(Deed::ReadBlock {
            session: session.copy(alloc)?,
            address: held_by(held, *handle).address,
            epoch: held_by(held, *handle).epoch,
            handles: handles.copy(alloc)?,
        }),
        (Asked::Look { session, key }, Reply::Held { handle, .. }) => Ok(Deed::Looked {
            session: session.copy(alloc)?,
            key: key.copy(alloc)?,
            handle: *handle,
        }),
        (Asked::Name { .. }, Reply::Name { .. }) => Ok(Deed::Nothing),
        (Asked::Delete, Reply::Run { .. }) => Ok(Deed::Entered { shard: 0 }),
        (Asked::Stat, Reply::Stat { .. }) => Ok(Deed::Nothing),
        _ => Ok(Deed::Refused {
            asked: asked.copy(alloc)?,
        }),
    }
}

/// The deed of an operation that was answered with Ok.
#[tactic(auto, unfolding(crate::specs::Deed::deed_of))]
fn deed_of_ok(alloc: Global, held: &[Held], asked: &Asked) -> Result<Deed, ModelFault>
    ensures { IfOk result (λ deed. deed ≡ deed_of held.now asked.now Reply.Ok) }
{
    match asked {
        Asked::Open { session } => Ok(Deed::Opened {
            session: session.copy(alloc)?,
        }),
        Asked::Close { session } => Ok(Deed::Closed {
            session: session.copy(alloc)?,
        }),
        Asked::Root { key, handle, .. } => Ok(Deed::Rooted {
            key: key.copy(alloc)?,
            address: held_by(held, *handle).address,
        }),
        Asked::Drop { key } => Ok(Deed::Dropped {
            key: key.copy(alloc)?,
        }),
        Asked::Forget { session, handle } => Ok(Deed::Forgot {
            session: session.copy(alloc)?,
            handle: *handle,
        }),
        Asked::Write { .. }
        | Asked::Read { .. }
        | Asked::Look { .. }
        | Asked::Name { .. }
        | Asked::Delete
        | Asked::Stat => {
            Ok(Deed::Refused {
                asked: asked.copy(alloc)?,
            })
        }
    }
}

/// What a handle stands for, and the zero address in epoch 0 where there is no such place.
fn held_by(held: &[Held], handle: u32) -> Held
    ensures { result ≡ held_by held.now handle }
{
    let nothing = Held {
        address: Address([0; 32]),
        epoch: 0,
    };
    held.get(handle as usize).copied().unwrap_or(nothing)
}

/// The addresses that some handles stand for.
fn addresses_in(
    alloc: Global,
    held: &[Held],
    handles: &[u32],
) -> Result<ListOf<Address>, ModelFault>
    ensures { IfOk result (λ addresses. addresses ≡ map (λ h. address_in held.now h) handles.now) }
{
    let mut addresses = ListOf::new(alloc);
    for handle in handles {
        addresses.push(held_by(held, *handle).address)?;
    }
    Ok(addresses)
}

/// The address that a write was given, the zero address where it was given none.
pub fn given_address(address: Option<Address>) -> Address
    ensures { result ≡ given_address address }
{
    address.unwrap_or(Address([0; 32]))
}
