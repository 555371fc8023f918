//! The script: its operations, and its text.
ghost use Rattle.std.specs.Prelude.{IfOk};
ghost use Rattle.hs_desk.specs.Tokens.{HasAddress, IsOfSession};

use crate::fault::RunFault;
use hs_block::{Addresser, Block, ShaNames};
use hs_limits::{Address, Key, ListOf, Name};
use hs_model::Op;
use std::alloc::Global;

/// An operation of the script.
#[derive(Clone, Copy, Debug, PartialEq, Eq)]
pub(crate) enum Step {
    Open,
    Leaf,
    Top,
    Root,
    Read,
    Drop,
    Close,
    Delete,
}

/// The script: a leaf is written twice, what points to it is kept, read and given up, and two deletions
/// follow.
pub(crate) const STEPS: [Step; 10] = [
    Step::Open,
    Step::Leaf,
    Step::Leaf,
    Step::Top,
    Step::Root,
    Step::Read,
    Step::Drop,
    Step::Close,
    Step::Delete,
    Step::Delete,
];

/// The same as text, where each operation is a line with a settle behind it.
pub(crate) const TEXT: &[u8] = b"open a
settle
write a 6f6e65
settle
write a 6f6e65
settle
write a - h0
settle
root a k h2
settle
read a h2
settle
drop k
settle
close a
settle
delete
settle
delete
settle
";

/// The session.
pub(crate) fn session(alloc: Global) -> Result<Name, RunFault> {
    let bytes = Vec::from_slice(alloc, b"a")?;
    match Name::from_list(ListOf::from_vec(bytes)) {
        Some(name) => Ok(name),
        None => Err(RunFault::NoMemory),
    }
}

/// The key.
fn key(alloc: Global) -> Result<Key, RunFault> {
    let bytes = Vec::from_slice(alloc, b"k")?;
    match Key::from_list(ListOf::from_vec(bytes)) {
        Some(key) => Ok(key),
        None => Err(RunFault::NoMemory),
    }
}

/// The address of the block of these pointers and bytes.
fn address_of(alloc: Global, pointers: &[Address], bytes: &[u8]) -> Result<Address, RunFault> {
    let block = Block::make(alloc, pointers, bytes)?;
    let mut spelling = Vec::new(alloc);
    block.write(&mut spelling)?;
    Ok(ShaNames.address(spelling.as_slice()))
}

/// The write of the leaf.
fn leaf(alloc: Global, session: Name) -> Result<Op, RunFault>
    ensures own { IfOk result (IsOfSession session) }
    ensures address { IfOk result HasAddress }
{
    let address = address_of(alloc, &[], b"one")?;
    Ok(Op::Write {
        session,
        payload: ListOf::from_vec(Vec::from_slice(alloc, b"one")?),
        handles: ListOf::new(alloc),
        address: Some(address),
    })
}

/// The write of what points to the leaf.
fn top(alloc: Global, session: Name) -> Result<Op, RunFault>
    ensures own { IfOk result (IsOfSession session) }
    ensures address { IfOk result HasAddress }
{
    let below = address_of(alloc, &[], b"one")?;
    let address = address_of(alloc, &[below], b"")?;
    Ok(Op::Write {
        session,
        payload: ListOf::new(alloc),
        handles: ListOf::from_vec(Vec::from_slice(alloc, &[0])?),
        address: Some(address),
    })
}

/// The operation of a step, in a session.
pub(crate) fn op_of(alloc: Global, step: Step, session: Name) -> Result<Op, RunFault>
    ensures own { IfOk result (IsOfSession session) }
    ensures address { IfOk result HasAddress }
{
    match step {
        Step::Open => Ok(Op::Open { session }),
        Step::Leaf => leaf(alloc, session),
        Step::Top => top(alloc, session),
        Step::Root => Ok(Op::Root {
            session,
            key: key(alloc)?,
            handle: 2,
        }),
        Step::Read => Ok(Op::Read { session, handle: 2 }),
        Step::Drop => Ok(Op::Drop { key: key(alloc)? }),
        Step::Close => Ok(Op::Close { session }),
        Step::Delete => Ok(Op::Delete),
    }
}
