//! A desk whose jobs do not follow the log, and one that leaves an entry waiting.
use crate::book::Book;
use crate::pass::{BookPass, BookSeat};
use crate::shelf::Task;
use crate::team::{add_askers, blank, workers};
use crate::turns::peers_in_turn;
use hs_block::{Block, ShaNames};
use hs_desk::OpenGate;
use hs_ports::MemoryDisk;
use hs_shared::SharedBytes;
use hs_workers::{Element, Shared, WorkFault, all_work};
use std::alloc::{AllocError, Global};
use std::sync::Wait;
use std::test::Fail;
use std::thread::Threads;

/// An Append of a block without bytes.
pub(crate) fn append(alloc: Global, number: u64) -> Result<Task, AllocError> {
    let Ok(block) = Block::make(alloc, &[], &[]) else {
        return Err(AllocError);
    };
    let mut bytes = Vec::new(alloc);
    if block.write(&mut bytes).is_err() {
        return Err(AllocError);
    }
    Ok(Task::Append {
        number,
        bytes: SharedBytes::from_vec(alloc, bytes)?,
    })
}

/// How the work of a peer ended.
fn ended_of(part: &Element<BookSeat, BookPass, MemoryDisk>) -> Result<(), WorkFault> {
    match part {
        Element::Worker { worker } => worker.ended,
        Element::Writer { writer } => match writer.ended {
            Ok(_) => Ok(()),
            Err(fault) => Err(fault),
        },
        Element::Deleter { deleter } => deleter.ended,
    }
}

/// How the work of peer 0 ends with these tasks, where nobody asks.
fn end_with<H: Threads + Wait + Sync>(
    alloc: Global,
    rt: &H,
    first: Task,
    second: Option<Task>,
) -> Result<Result<(), WorkFault>, AllocError> {
    let mut team = workers(alloc, blank(alloc, &[])?, blank(alloc, &[])?)?;
    let mut book = Book::new(alloc);
    book.put(0, first)?;
    if let Some(task) = second {
        book.put(0, task)?;
    }
    peers_in_turn(rt, &Shared::new(book, 0), team.as_mut_slice(), &OpenGate);
    match team.first() {
        Some(part) => Ok(ended_of(part)),
        None => Err(AllocError),
    }
}

/// The fault of a number that is not the next one.
fn torn(told: u64, kept: u64) -> Result<(), WorkFault> {
    Err(WorkFault::Torn {
        place: 0,
        told,
        kept,
    })
}

#[test]
fn an_entry_that_is_sealed_is_no_fault(rt: HostRuntime) -> Result<(), Fail> {
    let first = append(rt.alloc(), 1)?;
    assert_eq!(rt;
        end_with(rt.alloc(), &rt, first, Some(Task::Seal { number: 1 }))?,
        Ok(())
    );
    Ok(())
}

#[test]
fn a_number_that_is_not_the_next_one_is_torn(rt: HostRuntime) -> Result<(), Fail> {
    let alloc = rt.alloc();
    assert_eq!(rt; end_with(alloc, &rt, append(alloc, 7)?, None)?, torn(7, 1));
    assert_eq!(rt;
        end_with(alloc, &rt, Task::Seal { number: 1 }, None)?,
        torn(1, 0)
    );
    let second = append(alloc, 2)?;
    assert_eq!(rt;
        end_with(alloc, &rt, append(alloc, 1)?, Some(second))?,
        torn(2, 0)
    );
    let seal = Task::Seal { number: 2 };
    assert_eq!(rt;
        end_with(alloc, &rt, append(alloc, 1)?, Some(seal))?,
        torn(2, 1)
    );
    Ok(())
}

#[test]
fn an_entry_that_is_left_waiting_is_a_fault(rt: HostRuntime) -> Result<(), Fail> {
    let first = append(rt.alloc(), 1)?;
    let ended = end_with(rt.alloc(), &rt, first, None)?;
    assert_eq!(rt; ended, Err(WorkFault::NoMemory));
    Ok(())
}

/// How peer 0, writers 0 and 2 and the deleter end, where peer 0 is given a number that is not the next one.
fn stopped<H: Threads + Wait + Sync>(
    alloc: Global,
    rt: &H,
) -> Result<[Result<(), WorkFault>; 4], AllocError> {
    let mut team = workers(alloc, blank(alloc, &[])?, blank(alloc, &[])?)?;
    add_askers(alloc, &mut team, 3)?;
    let mut book = Book::new(alloc);
    book.put(0, append(alloc, 7)?)?;
    let shared = Shared::new(book, 4);
    all_work(alloc, rt, &ShaNames, &shared, &mut team, 7, 4, &OpenGate);
    match team.as_slice() {
        [zero, _, first, _, third, deleter] => Ok([
            ended_of(zero),
            ended_of(first),
            ended_of(third),
            ended_of(deleter),
        ]),
        _ => Err(AllocError),
    }
}

#[test]
fn a_worker_that_stops_lets_nobody_wait(rt: HostRuntime) -> Result<(), Fail> {
    let [zero, first, third, deleter] = stopped(rt.alloc(), &rt)?;
    assert_eq!(rt; zero, torn(7, 1));
    assert_eq!(rt; first, Err(WorkFault::NoMemory));
    assert_eq!(rt; third, Err(WorkFault::NoMemory));
    assert_eq!(rt; deleter, Err(WorkFault::NoMemory));
    Ok(())
}
