//! Roots of several shapes are copied; what is refused is told.
ghost use Rattle.std.specs.Prelude.{◌≡◌, IfOk, None};

use crate::count::Count;
use crate::plain::PlainAsker;
use hs_block::{Addresser, ShaNames, write_head};
use hs_copy::{CopyFault, copy_root};
use hs_desk::CoreFault;
use hs_limits::{Address, Key, Limits, ListOf, Name, Shape};
use hs_model::{ModelFault, Op, Reply};
use hs_plain::MemoryStore;
use std::alloc::{AllocError, Global};
use std::test::Fail;

/// A store with nothing in it.
fn empty(alloc: Global) -> Result<MemoryStore, ModelFault> {
    let shape = Shape {
        shards: 1,
        copies: 1,
    };
    MemoryStore::new(alloc, shape)
}

/// The key `k`.
fn key(alloc: Global) -> Result<Key, AllocError> {
    let bytes = ListOf::from_vec(Vec::from_slice(alloc, b"k")?);
    Ok(Key::from_list(bytes).unwrap())
}

/// The name `b`.
fn client(alloc: Global) -> Result<Name, AllocError> {
    let bytes = ListOf::from_vec(Vec::from_slice(alloc, b"b")?);
    Ok(Name::from_list(bytes).unwrap())
}

/// Writes a block above those of some handles, whose addresses these are.
fn write(
    alloc: Global,
    store: &mut MemoryStore,
    payload: &[u8],
    handles: &[u32],
    addresses: &[Address],
) -> Result<Address, ModelFault> {
    let mut head = Vec::new(alloc);
    if addresses.len() > 64 || payload.len() > 65_536 {
        return Err(ModelFault::NoMemory);
    }
    if write_head(addresses, payload.len(), &mut head).is_err() {
        return Err(ModelFault::NoMemory);
    }
    let address = ShaNames.address_of_parts(&head, payload);
    let op = Op::Write {
        session: client(alloc)?,
        payload: ListOf::from_vec(Vec::from_slice(alloc, payload)?),
        handles: ListOf::from_vec(Vec::from_slice(alloc, handles)?),
        address: Some(address),
    };
    store.judge(Limits::greatest(), op)?;
    Ok(address)
}

/// Keeps the block of a handle under the key, and closes the session.
fn keep(alloc: Global, store: &mut MemoryStore, handle: u32) -> Result<(), ModelFault> {
    let root = Op::Root {
        session: client(alloc)?,
        key: key(alloc)?,
        handle,
    };
    store.judge(Limits::greatest(), root)?;
    let close = Op::Close {
        session: client(alloc)?,
    };
    store.judge(Limits::greatest(), close)?;
    Ok(())
}

/// A store in which the key keeps a block above two, of which one stands below the other too.
fn three(alloc: Global, byte: u8) -> Result<MemoryStore, ModelFault> {
    let mut store = empty(alloc)?;
    let session = client(alloc)?;
    store.judge(Limits::greatest(), Op::Open { session })?;
    let leaf = write(alloc, &mut store, &[byte], &[], &[])?;
    let middle = write(alloc, &mut store, b"", &[0], &[leaf])?;
    write(alloc, &mut store, b"", &[0, 1, 0], &[leaf, middle, leaf])?;
    keep(alloc, &mut store, 2)?;
    Ok(store)
}

/// A store in which the key keeps the last of so many blocks, each above the one before it.
fn chain(alloc: Global, length: u32) -> Result<MemoryStore, ModelFault> {
    let mut store = empty(alloc)?;
    let session = client(alloc)?;
    store.judge(Limits::greatest(), Op::Open { session })?;
    let mut last = write(alloc, &mut store, b"", &[], &[])?;
    for at in 1..length {
        last = write(alloc, &mut store, b"", &[at - 1], &[last])?;
    }
    keep(alloc, &mut store, length.saturating_sub(1))?;
    Ok(store)
}

/// What a copy comes to.
#[derive(Clone, Copy, Debug, PartialEq, Eq)]
enum Came {
    Copied(u32),
    Refused,
    Full(u32),
    Stopped,
}

/// What a copy came to, and what was asked for in both stores.
#[derive(Clone, Copy, Debug, PartialEq, Eq)]
struct Outcome {
    came: Came,
    first: Count,
    second: Count,
}

/// Copies the key's root from one store into another.
fn copied_into(
    alloc: Global,
    first: MemoryStore,
    second: MemoryStore,
    every: Option<u32>,
) -> Result<Outcome, CoreFault> {
    let mut first = PlainAsker::new(alloc, first)?;
    let mut second = PlainAsker::new(alloc, second)?;
    let key = key(alloc)?;
    let came = match copy_root(alloc, &mut first, &mut second, &ShaNames, &key, every) {
        Ok(count) => Came::Copied(count),
        Err(CopyFault::Refused(_)) => Came::Refused,
        Err(CopyFault::CopyFull { blocks }) => Came::Full(blocks),
        Err(_) => Came::Stopped,
    };
    Ok(Outcome {
        came,
        first: first.count(),
        second: second.count(),
    })
}

#[test]
fn a_block_under_two_parents_is_read_once_and_written_once(rt: HostRuntime) -> Result<(), Fail> {
    let alloc = rt.alloc();
    let copied = copied_into(alloc, three(alloc, 7)?, empty(alloc)?, None)?;
    assert_eq!(rt; copied.came, Came::Copied(3));
    assert_eq!(rt; copied.first.reads, 3);
    assert_eq!(rt; copied.second.writes, 3);
    assert_eq!(rt; copied.second.roots, 1);
    Ok(())
}

#[test]
fn a_stale_write_begins_the_writing_again(rt: HostRuntime) -> Result<(), Fail> {
    let alloc = rt.alloc();
    let copied = copied_into(alloc, three(alloc, 7)?, empty(alloc)?, Some(1))?;
    assert_eq!(rt; copied.came, Came::Copied(3));
    assert_eq!(rt; copied.first.reads, 3);
    // Behind two deletions what the last block points to is stale, and behind four again.
    assert_eq!(rt; copied.second.writes, 9);
    assert_eq!(rt; copied.second.deletions, 4);
    assert_eq!(rt; copied.first.deletions, 0);
    Ok(())
}

#[test]
fn a_second_copy_finds_its_blocks(rt: HostRuntime) -> Result<(), Fail> {
    let alloc = rt.alloc();
    let same = copied_into(alloc, three(alloc, 7)?, three(alloc, 7)?, None)?;
    assert_eq!(rt; same.came, Came::Copied(3));
    let other = copied_into(alloc, three(alloc, 7)?, three(alloc, 8)?, None)?;
    assert_eq!(rt; other.came, Came::Refused);
    let nothing = copied_into(alloc, empty(alloc)?, empty(alloc)?, None)?;
    assert_eq!(rt; nothing.came, Came::Refused);
    assert_eq!(rt; nothing.second.writes, 0);
    Ok(())
}

#[test]
fn four_thousand_blocks_are_copied_and_no_more(rt: HostRuntime) -> Result<(), Fail> {
    let alloc = rt.alloc();
    let most = copied_into(alloc, chain(alloc, 4_000)?, empty(alloc)?, None)?;
    assert_eq!(rt; most.came, Came::Copied(4_000));
    let more = copied_into(alloc, chain(alloc, 4_001)?, empty(alloc)?, None)?;
    assert_eq!(rt; more.came, Came::Full(4_000));
    assert_eq!(rt; more.second.writes, 0);
    Ok(())
}
