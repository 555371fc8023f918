//! By what an operation is found beside its line: its session, and what may wake it.
ghost use Rattle.std.specs.Prelude.{◌≡◌, IfOk, Some};
ghost use Rattle.hs_awaiting.specs.Indexing.{block_cause, cause_of, room_cause, session_in, store_cause, storing, wait_cause};

use crate::{AwaitingFault, Wait, Waiting, puts_root, writes_block};
use hs_limits::Name;
use hs_model::Op;
use hs_waits::Cause;
use std::alloc::Global;

/// A copy of the name of an operation's session, if there is one.
pub(crate) fn session_in(alloc: Global, waiting: &Waiting) -> Result<Option<Name>, AwaitingFault>
    ensures { IfOk result (λ name. name ≡ session_in waiting.now) }
{
    match waiting.operation.session() {
        Some(name) => Ok(Some(name.copy(alloc)?)),
        None => Ok(None),
    }
}

/// What may wake an operation. None where no entry does.
pub(crate) fn cause_of(waiting: &Waiting) -> Option<Cause>
    ensures { result ≡ cause_of waiting.now }
{
    wait_cause(waiting.shard, waiting.operation.op(), waiting.wait)
}

/// What may wake an operation that waits for this. None where no entry does.
pub(crate) fn wait_cause(shard: u8, op: &Op, wait: Wait) -> Option<Cause>
    ensures { result ≡ wait_cause shard op.now wait }
{
    match wait {
        Wait::View => Some(Cause::View { shard }),
        Wait::Address => Some(block_cause(shard, op)),
        Wait::Room => room_cause(shard, op),
        Wait::Bytes { .. } | Wait::Entry { .. } => None,
    }
}

/// What a Block of an operation's line stores. None where none asks for one.
pub(crate) fn storing(waiting: &Waiting) -> Option<Cause>
    ensures { result ≡ storing waiting.now }
{
    store_cause(waiting.operation.op())
}

/// That of the address that a write names itself.
fn store_cause(op: &Op) -> Option<Cause>
    ensures { result ≡ store_cause op.now }
{
    match op {
        Op::Write {
            address: Some(address),
            ..
        } => Some(Cause::Block {
            shard: 0,
            address: *address,
        }),
        Op::Write { address: None, .. } => None,
        Op::Open { .. }
        | Op::Close { .. }
        | Op::Read { .. }
        | Op::Look { .. }
        | Op::Root { .. }
        | Op::Drop { .. }
        | Op::Forget { .. }
        | Op::Name { .. }
        | Op::Delete
        | Op::Stat => None,
    }
}

/// For an operation that waits for the Block of its address.
fn block_cause(shard: u8, op: &Op) -> Cause
    ensures { result ≡ block_cause shard op.now }
{
    match op.written_address() {
        Some(address) => Cause::Block { shard, address },
        None => Cause::Other { shard },
    }
}

/// For an operation that waits for room.
fn room_cause(shard: u8, op: &Op) -> Option<Cause>
    ensures { result ≡ room_cause shard op.now }
{
    if writes_block(op) {
        return Some(Cause::BlockRoom { shard });
    }
    if puts_root(op) {
        return Some(Cause::RootRoom { shard });
    }
    None
}
