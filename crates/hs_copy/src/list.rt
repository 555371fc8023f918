//! Listing all that a root reaches, each address once.
ghost use Rattle.std.specs.Prelude.{◌≡◌, ◌≤◌, IfErr, IfOk, None, OnOk, length};
ghost use Rattle.std.specs.BTreeMap.{insert_entry};
ghost use Rattle.hs_model.specs.Store.{address_cmp};
ghost use Rattle.hs_copy.specs.Whole.{IsHeldAddress, ListFails, ListsAll, NumberFails, NumbersAll, NumbersFail, NumbersOne, ReadFails, ReadsOne};
ghost use Rattle.hs_copy.specs.Finding.{Reads, ReadsStop};
ghost use Rattle.hs_copy.specs.declared.fault.PartFault.TheVariants.{NoMemory};
ghost use Rattle.hs_tree.specs.Storing.{our_session};

use crate::calls::{forget, read};
use crate::fault::PartFault;
use crate::pushing::push_to;
use crate::sizes::MOST_BLOCKS;
use hs_asking::Asker;
use hs_limits::{Address, ListOf, Name};
use hs_shared::SharedBytes;
use std::alloc::{AllocError, Global};
use std::collections::BTreeMap;

/// An address that was found, and the handle that stood for it.
#[derive(Clone, Copy, Debug, PartialEq, Eq)]
pub(crate) struct Found {
    pub address: Address,
    pub handle: u32,
}

/// A block that was read: its bytes, and for each of its pointers the number of the address in the order
/// in which they were found.
#[derive(Debug, Drop)]
pub(crate) struct Listed {
    pub bytes: SharedBytes,
    pub pointers: ListOf<u32>,
}

/// The address that a handle stands for. None counts as want of memory: where the asker tells its store,
/// a handle that it has just given stands for one.
fn held_address<B: Asker>(asker: &B, session: &Name, handle: u32) -> Result<Address, PartFault>
    requires { (B.shows asker.now).ended ≡ None }
    ensures ok { IfOk result (λ a. IsHeldAddress (B.shows asker.now) session.now handle a) }
    ensures err { IfErr result (λ f. f ≡ NoMemory) }
{
    match asker.held(session, handle) {
        Some(held) => Ok(held.address),
        None => Err(PartFault::NoMemory),
    }
}

/// Notes the number of an address that has none.
fn note_number(
    numbers: &mut BTreeMap<Address, u32>,
    address: Address,
    number: u32,
) -> Result<(), AllocError>
    ensures { OnOk result (numbers.new.entries
        ≡ insert_entry address_cmp numbers.old.entries address number) }
{
    numbers.insert(address, number)?;
    Ok(())
}

/// The number of what a handle stands for. An address that was found before keeps its number, and the
/// handle is forgotten; another one gets the next number.
fn number_one<B: Asker>(
    alloc: Global,
    asker: &mut B,
    session: &Name,
    handle: u32,
    numbers: &mut BTreeMap<Address, u32>,
    found: &mut Vec<Found>,
) -> Result<u32, PartFault>
    requires going { (B.shows asker.old).ended ≡ None }
    requires ours { session.now ≡ our_session }
    ensures reads { IfOk result (λ x. Reads (B.shows asker.old) (B.shows asker.new) 0) }
    ensures numbers { IfOk result (λ n. NumbersOne (B.shows asker.old) (B.shows asker.new) handle
        numbers.old.entries numbers.new.entries found.old.items found.new.items n) }
    ensures few { IfOk result (λ x.
        length found.old.items ≤ 4000 → length found.new.items ≤ 4000) }
    ensures stops { IfErr result (λ f.
        ReadsStop (B.shows asker.old) (B.shows asker.new) 0 f) }
    ensures fails { IfErr result (λ f. NumberFails (B.shows asker.old) handle
        numbers.old.entries found.old.items f) }
{
    let address = held_address(asker, session, handle)?;
    if let Some(number) = numbers.get(&address).copied() {
        forget(alloc, asker, session, handle)?;
        return Ok(number);
    }
    if found.len() >= MOST_BLOCKS {
        return Err(PartFault::TooMany);
    }
    let number = found.len() as u32;
    note_number(numbers, address, number)?;
    push_to(found, Found { address, handle })?;
    Ok(number)
}

/// The numbers of what some handles stand for.
fn number_all<B: Asker>(
    alloc: Global,
    asker: &mut B,
    session: &Name,
    handles: &[u32],
    numbers: &mut BTreeMap<Address, u32>,
    found: &mut Vec<Found>,
) -> Result<ListOf<u32>, PartFault>
    requires going { (B.shows asker.old).ended ≡ None }
    requires ours { session.now ≡ our_session }
    ensures reads { IfOk result (λ x. Reads (B.shows asker.old) (B.shows asker.new) 0) }
    ensures numbers { IfOk result (λ ptrs. NumbersAll (B.shows asker.old) (B.shows asker.new)
        handles.now numbers.old.entries numbers.new.entries found.old.items found.new.items ptrs) }
    ensures few { IfOk result (λ x.
        length found.old.items ≤ 4000 → length found.new.items ≤ 4000) }
    ensures stops { IfErr result (λ f.
        ReadsStop (B.shows asker.old) (B.shows asker.new) 0 f) }
    ensures fails { IfErr result (λ f. NumbersFail (B.shows asker.old) handles.now
        numbers.old.entries found.old.items f) }
{
    let mut pointers = Vec::new(alloc);
    for handle in handles {
        let number = number_one(alloc, asker, session, *handle, numbers, found)?;
        push_to(&mut pointers, number)?;
    }
    Ok(ListOf::from_vec(pointers))
}

/// Reads a block, forgets its handle, and numbers what it points to.
fn read_one<B: Asker>(
    alloc: Global,
    asker: &mut B,
    session: &Name,
    handle: u32,
    numbers: &mut BTreeMap<Address, u32>,
    found: &mut Vec<Found>,
) -> Result<Listed, PartFault>
    requires going { (B.shows asker.old).ended ≡ None }
    requires ours { session.now ≡ our_session }
    ensures reads { IfOk result (λ x. Reads (B.shows asker.old) (B.shows asker.new) 1) }
    ensures one { IfOk result (λ x. ReadsOne (B.shows asker.old) (B.shows asker.new) handle
        numbers.old.entries numbers.new.entries found.old.items found.new.items x) }
    ensures few { IfOk result (λ x.
        length found.old.items ≤ 4000 → length found.new.items ≤ 4000) }
    ensures stops { IfErr result (λ f.
        ReadsStop (B.shows asker.old) (B.shows asker.new) 1 f) }
    ensures fails { IfErr result (λ f. ReadFails (B.shows asker.old) handle
        numbers.old.entries found.old.items f) }
{
    let (bytes, handles) = read(alloc, asker, session, handle)?;
    forget(alloc, asker, session, handle)?;
    let pointers = number_all(alloc, asker, session, handles.as_slice(), numbers, found)?;
    Ok(Listed { bytes, pointers })
}

/// Reads the block of a handle and all that it reaches, each address once, in the order in which they
/// are found: so number 0 is the handle's own.
pub(crate) fn list_blocks<B: Asker>(
    alloc: Global,
    asker: &mut B,
    session: &Name,
    handle: u32,
) -> Result<Vec<Listed>, PartFault>
    requires going { (B.shows asker.old).ended ≡ None }
    requires ours { session.now ≡ our_session }
    ensures reads { IfOk result (λ x. Reads (B.shows asker.old) (B.shows asker.new) (length x.items)) }
    ensures all { IfOk result (λ x. ListsAll (B.shows asker.old) (B.shows asker.new) handle x.items) }
    ensures few { IfOk result (λ x. length x.items ≤ 4000) }
    ensures stops { IfErr result (λ f.
        ReadsStop (B.shows asker.old) (B.shows asker.new) 4000 f) }
    ensures fails { IfErr result (λ f. ListFails (B.shows asker.old) handle f) }
{
    let mut numbers = BTreeMap::new(alloc);
    let mut found = Vec::new(alloc);
    number_one(alloc, asker, session, handle, &mut numbers, &mut found)?;
    let mut listed = Vec::new(alloc);
    'blocks: while listed.len() < found.len() {
        let handle = found[listed.len()].handle;
        let block = read_one(alloc, asker, session, handle, &mut numbers, &mut found)?;
        push_to(&mut listed, block)?;
    }
    Ok(listed)
}
