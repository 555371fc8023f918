//! What the plain store in memory answers a client who asks for what files and copies need.
ghost use Rattle.std.specs.Prelude.{IfOk};
ghost use Rattle.hs_asking.specs.Telling.{MayBeTold};
ghost use Rattle.hs_model.specs.declared.op.Op.TheVariants as op;

use hs_desk::CoreFault;
use hs_limits::{Address, Key, Limits, ListOf, Name};
use hs_model::{Op, Reply};
use hs_plain::MemoryStore;

/// What the operation comes to, where it is done or there is no such key. Any other answer counts as want
/// of memory.
pub(crate) fn answer(store: &mut MemoryStore, limits: Limits, op: Op) -> Result<Reply, CoreFault>
    ensures { IfOk result (λ told. MayBeTold op told) }
{
    match op {
        Op::Open { session } => open(store, limits, session),
        Op::Write {
            session,
            payload,
            handles,
            address,
        } => write(store, limits, session, payload, handles, address),
        Op::Read { session, handle } => read(store, limits, session, handle),
        Op::Look { session, key } => look(store, limits, session, key),
        Op::Root {
            session,
            key,
            handle,
        } => root(store, limits, session, key, handle),
        Op::Forget { session, handle } => forget(store, limits, session, handle),
        Op::Delete => delete(store, limits),
        Op::Close { .. } | Op::Drop { .. } | Op::Name { .. } | Op::Stat => {
            Err(CoreFault::NoMemory)
        }
    }
}

/// The store's reply.
fn judged(store: &mut MemoryStore, limits: Limits, op: Op) -> Result<Reply, CoreFault> {
    match store.judge(limits, op) {
        Ok(answer) => Ok(answer.reply),
        Err(_) => Err(CoreFault::NoMemory),
    }
}

/// Opens a session.
#[tactic(auto, unfolding(hs_asking::specs::Telling::grants, hs_asking::specs::Telling::may_be_told))]
fn open(store: &mut MemoryStore, limits: Limits, session: Name) -> Result<Reply, CoreFault>
    ensures { IfOk result (λ told. MayBeTold (op.Open session) told) }
{
    match judged(store, limits, Op::Open { session })? {
        Reply::Ok => Ok(Reply::Ok),
        _ => Err(CoreFault::NoMemory),
    }
}

/// Writes a block.
#[tactic(auto, unfolding(hs_asking::specs::Telling::grants, hs_asking::specs::Telling::may_be_told))]
fn write(
    store: &mut MemoryStore,
    limits: Limits,
    session: Name,
    payload: ListOf<u8>,
    handles: ListOf<u32>,
    address: Option<Address>,
) -> Result<Reply, CoreFault>
    ensures { IfOk result (λ told. MayBeTold (op.Write session payload handles address) told) }
{
    match judged(
        store,
        limits,
        Op::Write {
            session,
            payload,
            handles,
            address,
        },
    )? {
        Reply::New { handle, epoch } => Ok(Reply::New { handle, epoch }),
        Reply::Dup { handle, epoch } => Ok(Reply::Dup { handle, epoch }),
        Reply::Stale { handle, held, now } => Ok(Reply::Stale { handle, held, now }),
        Reply::Collision => Ok(Reply::Collision),
        _ => Err(CoreFault::NoMemory),
    }
}

/// Reads a block.
#[tactic(auto, unfolding(hs_asking::specs::Telling::grants, hs_asking::specs::Telling::may_be_told))]
fn read(
    store: &mut MemoryStore,
    limits: Limits,
    session: Name,
    handle: u32,
) -> Result<Reply, CoreFault>
    ensures { IfOk result (λ told. MayBeTold (op.Read session handle) told) }
{
    match judged(store, limits, Op::Read { session, handle })? {
        Reply::Bytes { bytes, handles } => Ok(Reply::Bytes { bytes, handles }),
        _ => Err(CoreFault::NoMemory),
    }
}

/// Looks a key up.
#[tactic(auto, unfolding(hs_asking::specs::Telling::grants, hs_asking::specs::Telling::may_be_told))]
fn look(
    store: &mut MemoryStore,
    limits: Limits,
    session: Name,
    key: Key,
) -> Result<Reply, CoreFault>
    ensures { IfOk result (λ told. MayBeTold (op.Look session key) told) }
{
    match judged(store, limits, Op::Look { session, key })? {
        Reply::Held { handle, epoch } => Ok(Reply::Held { handle, epoch }),
        Reply::NoKey { key } => Ok(Reply::NoKey { key }),
        _ => Err(CoreFault::NoMemory),
    }
}

/// Puts a root.
#[tactic(auto, unfolding(hs_asking::specs::Telling::grants, hs_asking::specs::Telling::may_be_told))]
fn root(
    store: &mut MemoryStore,
    limits: Limits,
    session: Name,
    key: Key,
    handle: u32,
) -> Result<Reply, CoreFault>
    ensures { IfOk result (λ told. MayBeTold (op.Root session key handle) told) }
{
    match judged(
        store,
        limits,
        Op::Root {
            session,
            key,
            handle,
        },
    )? {
        Reply::Ok => Ok(Reply::Ok),
        Reply::Stale { handle, held, now } => Ok(Reply::Stale { handle, held, now }),
        Reply::KeyTaken { key } => Ok(Reply::KeyTaken { key }),
        _ => Err(CoreFault::NoMemory),
    }
}

/// Forgets a handle.
#[tactic(auto, unfolding(hs_asking::specs::Telling::grants, hs_asking::specs::Telling::may_be_told))]
fn forget(
    store: &mut MemoryStore,
    limits: Limits,
    session: Name,
    handle: u32,
) -> Result<Reply, CoreFault>
    ensures { IfOk result (λ told. MayBeTold (op.Forget session handle) told) }
{
    match judged(store, limits, Op::Forget { session, handle })? {
        Reply::Ok => Ok(Reply::Ok),
        _ => Err(CoreFault::NoMemory),
    }
}

/// Begins a deletion, and has shard 0 sweep.
#[tactic(auto, unfolding(hs_asking::specs::Telling::grants, hs_asking::specs::Telling::may_be_told))]
fn delete(store: &mut MemoryStore, limits: Limits) -> Result<Reply, CoreFault>
    ensures { IfOk result (λ told. MayBeTold op.Delete told) }
{
    let told = judged(store, limits, Op::Delete)?;
    if store.may_sweep(0) && store.sweep(0).is_err() {
        return Err(CoreFault::NoMemory);
    }
    match told {
        Reply::Run { epoch } => Ok(Reply::Run { epoch }),
        Reply::Running { epoch } => Ok(Reply::Running { epoch }),
        _ => Err(CoreFault::NoMemory),
    }
}
