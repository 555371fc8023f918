//! One who asks a book.
use crate::fault::RunFault;
use crate::script::{STEPS, Step, op_of, session};
use crate::stand::Stand;
use crate::working::work_until_idle;
use hs_book::{Book, BookPass, BookSeat, Opening};
use hs_desk::Clerk;
use hs_ports::Disk;
use std::alloc::Global;

/// Asks for the operation of a step, and lets the workers do what comes of it. Whether it is answered.
fn ask<O: Opening, D: Disk>(
    alloc: Global,
    book: &mut Book<O>,
    seats: &mut Vec<BookSeat>,
    stand: &mut Stand<D>,
    step: Step,
) -> Result<bool, RunFault> {
    let own = session(alloc)?;
    let op = op_of(alloc, step, own.copy(alloc)?)?;
    let mut pass = BookPass::new(alloc, own);
    let number = book.begin(&mut pass, op)?;
    work_until_idle(book, seats, stand)?;
    let reply = book.answer(&mut pass, number)?;
    Ok(reply.is_some())
}

/// Asks for each step of the script in order. Whether each is answered once the workers are idle.
pub(crate) fn ask_all<O: Opening, D: Disk>(
    alloc: Global,
    book: &mut Book<O>,
    seats: &mut Vec<BookSeat>,
    stand: &mut Stand<D>,
) -> Result<bool, RunFault> {
    let mut answered = true;
    for step in STEPS {
        if !ask(alloc, book, seats, stand, step)? {
            answered = false;
        }
    }
    Ok(answered)
}
