//! Each operation that a copy asks for.
ghost use Rattle.std.specs.Prelude.{◌≡◌, ◌∷◌, ◌++◌, ℕ, [], length, map, IfOk, IfErr, IfSome, None, OnOk, Some};
ghost use Rattle.hs_asking.specs.Asked.{IsNamed};
ghost use Rattle.hs_asking.specs.Telling.{is_bytes, is_held, is_ok, is_written};
ghost use Rattle.hs_model.specs.declared.op.Op.TheVariants as op;
ghost use Rattle.hs_model.specs.declared.reply.Reply.TheVariants as reply;
ghost use Rattle.hs_copy.specs.Calls.{CallFails, IsCore, IsHeard, IsRefusedAs};
ghost use Rattle.hs_tree.specs.Calls.{Hears};
ghost use Rattle.hs_tree.specs.Telling.{GivesLooked, GivesWritten, IsLookedAs, IsWrittenAs};

use crate::fault::PartFault;
use hs_asking::Asker;
use hs_limits::{Address, Key, ListOf, Name};
use hs_model::{Op, Reply};
use hs_shared::SharedBytes;
use std::alloc::Global;

/// Asks for an operation.
fn ask<B: Asker>(asker: &mut B, op: Op) -> Result<Reply, PartFault>
    requires going { (B.shows asker.old).ended ≡ None }
    requires named { IsNamed (B.shows asker.old) op }
    ensures told { IfOk result (λ told. Hears (B.shows asker.old) (B.shows asker.new) op told) }
    ensures err { IfErr result (λ fault.
        CallFails (B.shows asker.old) (B.shows asker.new) op fault) }
    ensures core { IfErr result IsCore }
{
    match asker.ask(op) {
        Ok(told) => {
            asker.known();
            Ok(told)
        }
        Err(core) => Err(PartFault::Core(core)),
    }
}

/// Whether the reply is that it was done.
fn done(told: Reply) -> Result<(), PartFault>
    ensures ok { OnOk result (told ≡ reply.Ok) }
    ensures err { IfErr result (λ fault. IsRefusedAs told (is_ok told) fault) }
{
    match told {
        Reply::Ok => Ok(()),
        refusal => Err(PartFault::Refused(refusal)),
    }
}

/// The handle that the reply to a write gives.
fn written(told: Reply) -> Result<u32, PartFault>
    ensures ok { IfOk result (λ handle. GivesWritten told handle) }
    ensures err { IfErr result (λ fault. IsRefusedAs told (is_written told) fault) }
{
    match told {
        Reply::New { handle, .. } => Ok(handle),
        Reply::Dup { handle, .. } => Ok(handle),
        refusal => Err(PartFault::Refused(refusal)),
    }
}

/// The handle that the reply to a look gives.
fn looked(told: Reply) -> Result<u32, PartFault>
    ensures ok { IfOk result (λ handle. GivesLooked told handle) }
    ensures err { IfErr result (λ fault. IsRefusedAs told (is_held told) fault) }
{
    match told {
        Reply::Held { handle, .. } => Ok(handle),
        refusal => Err(PartFault::Refused(refusal)),
    }
}

/// The block that the reply to a read tells.
fn read_block(told: Reply) -> Result<(SharedBytes, ListOf<u32>), PartFault>
    ensures ok { IfOk result (λ block. told ≡ reply.Bytes block.0 block.1) }
    ensures err { IfErr result (λ fault. IsRefusedAs told (is_bytes told) fault) }
{
    match told {
        Reply::Bytes { bytes, handles } => Ok((bytes, handles)),
        refusal => Err(PartFault::Refused(refusal)),
    }
}

/// Opens a session.
pub(crate) fn open<B: Asker>(alloc: Global, asker: &mut B, session: &Name) -> Result<(), PartFault>
    requires going { (B.shows asker.old).ended ≡ None }
    ensures ok { OnOk result (
        Hears (B.shows asker.old) (B.shows asker.new) (op.Open session.now) reply.Ok) }
    ensures err { IfErr result (λ fault.
        CallFails (B.shows asker.old) (B.shows asker.new) (op.Open session.now) fault) }
{
    let session = session.copy(alloc)?;
    let told = ask(asker, Op::Open { session })?;
    done(told)
}

/// Writes a block, and answers the handle that the session holds then.
pub(crate) fn write<B: Asker>(
    alloc: Global,
    asker: &mut B,
    session: &Name,
    payload: ListOf<u8>,
    handles: ListOf<u32>,
    address: Address,
) -> Result<u32, PartFault>
    requires going { (B.shows asker.old).ended ≡ None }
    requires named { IsNamed (B.shows asker.old)
        (op.Write session.now payload handles (Some address)) }
    ensures ok { IfOk result (λ handle. IsWrittenAs (B.shows asker.old) (B.shows asker.new)
        (op.Write session.now payload handles (Some address)) handle) }
    ensures err { IfErr result (λ fault. CallFails (B.shows asker.old) (B.shows asker.new)
        (op.Write session.now payload handles (Some address)) fault) }
{
    let session = session.copy(alloc)?;
    let op = Op::Write {
        session,
        payload,
        handles,
        address: Some(address),
    };
    let told = ask(asker, op)?;
    written(told)
}

/// Reads the block of a handle: its bytes, and a handle for each of its pointers.
pub(crate) fn read<B: Asker>(
    alloc: Global,
    asker: &mut B,
    session: &Name,
    handle: u32,
) -> Result<(SharedBytes, ListOf<u32>), PartFault>
    requires going { (B.shows asker.old).ended ≡ None }
    ensures ok { IfOk result (λ block. Hears (B.shows asker.old) (B.shows asker.new)
        (op.Read session.now handle) (reply.Bytes block.0 block.1)) }
    ensures err { IfErr result (λ fault. CallFails (B.shows asker.old) (B.shows asker.new)
        (op.Read session.now handle) fault) }
{
    let session = session.copy(alloc)?;
    let told = ask(asker, Op::Read { session, handle })?;
    read_block(told)
}

/// Looks up the root of a key, and answers the handle that the session holds then.
pub(crate) fn look<B: Asker>(
    alloc: Global,
    asker: &mut B,
    session: &Name,
    key: &Key,
) -> Result<u32, PartFault>
    requires going { (B.shows asker.old).ended ≡ None }
    ensures ok { IfOk result (λ handle. IsLookedAs (B.shows asker.old) (B.shows asker.new)
        (op.Look session.now key.now) handle) }
    ensures err { IfErr result (λ fault. CallFails (B.shows asker.old) (B.shows asker.new)
        (op.Look session.now key.now) fault) }
{
    let session = session.copy(alloc)?;
    let key = key.copy(alloc)?;
    let told = ask(asker, Op::Look { session, key })?;
    looked(told)
}

/// Keeps what a handle stands for under a key.
pub(crate) fn root<B: Asker>(
    alloc: Global,
    asker: &mut B,
    session: &Name,
    key: &Key,
    handle: u32,
) -> Result<(), PartFault>
    requires going { (B.shows asker.old).ended ≡ None }
    ensures ok { OnOk result (Hears (B.shows asker.old) (B.shows asker.new)
        (op.Root session.now key.now handle) reply.Ok) }
    ensures err { IfErr result (λ fault. CallFails (B.shows asker.old) (B.shows asker.new)
        (op.Root session.now key.now handle) fault) }
{
    let session = session.copy(alloc)?;
    let key = key.copy(alloc)?;
    let op = Op::Root {
        session,
        key,
        handle,
    };
    let told = ask(asker, op)?;
    done(told)
}

/// Forgets a handle.
pub(crate) fn forget<B: Asker>(
    alloc: Global,
    asker: &mut B,
    session: &Name,
    handle: u32,
) -> Result<(), PartFault>
    requires going { (B.shows asker.old).ended ≡ None }
    ensures ok { OnOk result (Hears (B.shows asker.old) (B.shows asker.new)
        (op.Forget session.now handle) reply.Ok) }
    ensures err { IfErr result (λ fault. CallFails (B.shows asker.old) (B.shows asker.new)
        (op.Forget session.now handle) fault) }
{
    let session = session.copy(alloc)?;
    let told = ask(asker, Op::Forget { session, handle })?;
    done(told)
}

/// Asks for a deletion, and takes any answer.
pub(crate) fn delete<B: Asker>(asker: &mut B) -> Result<(), PartFault>
    requires going { (B.shows asker.old).ended ≡ None }
    ensures ok { OnOk result (IsHeard (B.shows asker.old) (B.shows asker.new) op.Delete) }
    ensures err { IfErr result (λ fault.
        CallFails (B.shows asker.old) (B.shows asker.new) op.Delete fault) }
    ensures core { IfErr result IsCore }
{
    ask(asker, Op::Delete)?;
    Ok(())
}
