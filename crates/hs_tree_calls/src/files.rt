//! Files of several lengths are stored and fetched; what is no file is told.
ghost use Rattle.std.specs.Prelude.{◌≡◌, IfOk, None};

use crate::plain::PlainAsker;
use hs_block::ShaNames;
use hs_limits::{Address, Key, Limits, ListOf, Name, Shape};
use hs_model::{ModelFault, Op};
use hs_plain::MemoryStore;
use hs_ports::ListSource;
use hs_tree::{TreeFault, fetch_file, store_file};
use std::alloc::{AllocError, Global};
use std::test::Fail;

/// A store with nothing in it.
fn empty(alloc: Global) -> Result<MemoryStore, TreeFault> {
    let shape = Shape {
        shards: 1,
        copies: 1,
    };
    MemoryStore::new(alloc, shape).map_err(|_| TreeFault::NoMemory)
}

/// An asker over a store.
fn asking(alloc: Global, store: MemoryStore) -> Result<PlainAsker, TreeFault>
    ensures { IfOk result (λ asker. asker.ended ≡ None) }
{
    PlainAsker::new(alloc, store).map_err(|fault| TreeFault::Core(fault))
}

/// The key `k`.
fn key(alloc: Global) -> Result<Key, AllocError> {
    let bytes = ListOf::from_vec(Vec::from_slice(alloc, b"k")?);
    Ok(Key::from_list(bytes).unwrap())
}

/// The name `b`.
fn client(alloc: Global) -> Result<Name, AllocError> {
    let bytes = ListOf::from_vec(Vec::from_slice(alloc, b"b")?);
    Ok(Name::from_list(bytes).unwrap())
}

/// A file of so many bytes.
fn file_of(alloc: Global, length: usize) -> Result<Vec<u8>, AllocError> {
    let mut bytes = Vec::new(alloc);
    for at in 0..length {
        bytes.push((at % 251) as u8)?;
    }
    Ok(bytes)
}

/// Whether a file of so many bytes is stored, and fetched as it was.
fn comes_back(alloc: Global, length: usize) -> Result<bool, TreeFault> {
    let mut storing = asking(alloc, empty(alloc)?)?;
    let file = file_of(alloc, length)?;
    let mut source = ListSource::new(alloc, file_of(alloc, length)?, Vec::new(alloc));
    let count = store_file(alloc, &mut storing, &ShaNames, &mut source, &key(alloc)?)?;
    let again = storing.again(alloc).map_err(|fault| TreeFault::Core(fault));
    let mut fetching = again?;
    let mut out = Vec::new(alloc);
    fetch_file(alloc, &mut fetching, &key(alloc)?, &mut out)?;
    Ok(count == length as u64 && out.as_slice() == file.as_slice())
}

/// Writes a block above some handles.
fn write(
    alloc: Global,
    store: &mut MemoryStore,
    payload: Vec<u8>,
    handles: Vec<u32>,
    address: u8,
) -> Result<(), ModelFault> {
    let op = Op::Write {
        session: client(alloc)?,
        payload: ListOf::from_vec(payload),
        handles: ListOf::from_vec(handles),
        address: Some(Address([address; 32])),
    };
    store.judge(Limits::greatest(), op)?;
    Ok(())
}

/// Keeps under the key a block of these bytes above two others, which have so many bytes each.
fn keep(
    alloc: Global,
    store: &mut MemoryStore,
    top: &[u8],
    first: usize,
    second: usize,
) -> Result<(), ModelFault> {
    let session = client(alloc)?;
    store.judge(Limits::greatest(), Op::Open { session })?;
    write(alloc, store, file_of(alloc, first)?, Vec::new(alloc), 1)?;
    write(alloc, store, file_of(alloc, second)?, Vec::new(alloc), 2)?;
    let handles = Vec::from_slice(alloc, &[0, 1])?;
    write(alloc, store, Vec::from_slice(alloc, top)?, handles, 3)?;
    let root = Op::Root {
        session: client(alloc)?,
        key: key(alloc)?,
        handle: 2,
    };
    store.judge(Limits::greatest(), root)?;
    Ok(())
}

/// How many bytes are fetched of such a block. None where it is no file.
fn fetched(
    alloc: Global,
    top: &[u8],
    first: usize,
    second: usize,
) -> Result<Option<usize>, TreeFault> {
    let mut store = empty(alloc)?;
    if keep(alloc, &mut store, top, first, second).is_err() {
        return Err(TreeFault::NoMemory);
    }
    let mut asker = asking(alloc, store)?;
    let mut out = Vec::new(alloc);
    match fetch_file(alloc, &mut asker, &key(alloc)?, &mut out) {
        Ok(()) => Ok(Some(out.len())),
        Err(TreeFault::NotATree { .. }) => Ok(None),
        Err(fault) => Err(fault),
    }
}

#[test]
fn files_come_back(rt: HostRuntime) -> Result<(), Fail> {
    for length in [0, 1, 65_536, 65_537, 4_194_304, 4_194_305] {
        assert!(rt; comes_back(rt.alloc(), length)?);
    }
    Ok(())
}

#[test]
fn a_block_of_a_script_is_a_file_where_it_is_of_that_shape(rt: HostRuntime) -> Result<(), Fail> {
    let top = 65_537_u64.to_be_bytes();
    assert_eq!(rt; fetched(rt.alloc(), &top, 65_536, 1)?, Some(65_537));
    assert_eq!(rt; fetched(rt.alloc(), &top, 65_535, 2)?, None);
    assert_eq!(rt; fetched(rt.alloc(), &top, 65_536, 2)?, None);
    assert_eq!(rt;
        fetched(rt.alloc(), &65_538_u64.to_be_bytes(), 65_536, 1)?,
        None
    );
    assert_eq!(rt;
        fetched(rt.alloc(), &65_536_u64.to_be_bytes(), 65_536, 0)?,
        None
    );
    assert_eq!(rt; fetched(rt.alloc(), b"of bytes", 65_536, 1)?, None);
    Ok(())
}
