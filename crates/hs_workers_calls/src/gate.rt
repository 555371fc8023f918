//! Peers beside each other: each disk waits for the other's first write, and both are let through.
use crate::book::Book;
use crate::held::{Flags, HeldDisk, RaisingGate};
use crate::locked::LockedDisk;
use crate::refusing::append;
use crate::shelf::Task;
use crate::team::{blank, workers};
use crate::turns::peers_in_turn;
use hs_block::ShaNames;
use hs_workers::{Shared, all_work};
use std::alloc::{AllocError, Global};
use std::sync::{Mutex, Wait};
use std::test::Fail;
use std::thread::Threads;

/// A book in which an entry waits for each peer, and nobody asks.
fn book_of(alloc: Global) -> Result<Shared<Book>, AllocError> {
    let mut book = Book::new(alloc);
    for peer in 0..2 {
        book.put(peer, append(alloc, 1)?)?;
        book.put(peer, Task::Seal { number: 1 })?;
    }
    Ok(Shared::new(book, 0))
}

/// Whether both are let through where they work beside each other.
fn beside<H: Threads + Wait + Sync>(alloc: Global, rt: &H) -> Result<bool, AllocError> {
    let flags = Flags::new();
    let zero = HeldDisk::new(blank(alloc, &[])?, &flags, 0, 1_000_000_000);
    let one = HeldDisk::new(blank(alloc, &[])?, &flags, 1, 1_000_000_000);
    let mut team = workers(alloc, zero, one)?;
    let gate = RaisingGate::new(&flags);
    all_work(
        alloc,
        rt,
        &ShaNames,
        &book_of(alloc)?,
        &mut team,
        1,
        0,
        &gate,
    );
    Ok(flags.are_through())
}

/// Whether both are let through where they work in turn.
fn in_turn<H: Threads + Wait + Sync>(alloc: Global, rt: &H) -> Result<bool, AllocError> {
    let flags = Flags::new();
    let zero = HeldDisk::new(blank(alloc, &[])?, &flags, 0, 1_000_000);
    let one = HeldDisk::new(blank(alloc, &[])?, &flags, 1, 1_000_000);
    let mut team = workers(alloc, zero, one)?;
    let gate = RaisingGate::new(&flags);
    peers_in_turn(rt, &book_of(alloc)?, team.as_mut_slice(), &gate);
    Ok(flags.are_through())
}

/// Whether both are let through where a lock is held through each write.
fn under_a_lock<H: Threads + Wait + Sync>(alloc: Global, rt: &H) -> Result<bool, AllocError> {
    let flags = Flags::new();
    let lock = Mutex::new(0);
    let zero = HeldDisk::new(blank(alloc, &[])?, &flags, 0, 1_000_000);
    let one = HeldDisk::new(blank(alloc, &[])?, &flags, 1, 1_000_000);
    let zero = LockedDisk::new(zero, rt, &lock);
    let one = LockedDisk::new(one, rt, &lock);
    let mut team = workers(alloc, zero, one)?;
    let gate = RaisingGate::new(&flags);
    all_work(
        alloc,
        rt,
        &ShaNames,
        &book_of(alloc)?,
        &mut team,
        1,
        0,
        &gate,
    );
    Ok(flags.are_through())
}

#[test]
fn peers_work_beside_each_other(rt: HostRuntime) -> Result<(), Fail> {
    assert_eq!(rt; beside(rt.alloc(), &rt)?, true);
    Ok(())
}

#[test]
fn peers_in_turn_are_not_let_through(rt: HostRuntime) -> Result<(), Fail> {
    assert_eq!(rt; in_turn(rt.alloc(), &rt)?, false);
    Ok(())
}

#[test]
fn peers_under_one_lock_are_not_let_through(rt: HostRuntime) -> Result<(), Fail> {
    assert_eq!(rt; under_a_lock(rt.alloc(), &rt)?, false);
    Ok(())
}
