//! Workers that take turns, each on the disk of its peer.
use crate::fault::RunFault;
use crate::stand::Stand;
use hs_book::{Book, BookSeat, Opening};
use hs_desk::{Desk, Next, Seat};
use hs_ports::Disk;
use std::alloc::{AllocError, Global};

/// How many steps a worker has in one turn at most, and how many turns all workers have.
const MOST_STEPS: u32 = 1000;

const MOST_TURNS: u32 = 1000;

/// The seats of so many peers.
pub(crate) fn seats_of(alloc: Global, peers: u8) -> Result<Vec<BookSeat>, AllocError> {
    let mut seats = Vec::new(alloc);
    for peer in 0..peers {
        seats.push(BookSeat::new(alloc, peer))?;
    }
    Ok(seats)
}

/// One step of a worker. Whether it had something to do.
fn work<O: Opening, D: Disk>(
    book: &mut Book<O>,
    seat: &mut BookSeat,
    stand: &mut Stand<D>,
) -> Result<bool, RunFault> {
    match book.next(seat)? {
        Next::Do(job) => {
            let slip = seat.slip();
            let place = slip.stored.len() as u64;
            let done = stand.work_on(slip.peer, place, &job)?;
            book.report(seat, done)?;
            Ok(true)
        }
        Next::Handled => Ok(true),
        Next::Idle => Ok(false),
    }
}

/// Steps of a worker until it is idle. Whether it had something to do.
fn work_to_idle<O: Opening, D: Disk>(
    book: &mut Book<O>,
    seat: &mut BookSeat,
    stand: &mut Stand<D>,
) -> Result<bool, RunFault> {
    for step in 0..MOST_STEPS {
        if !work(book, seat, stand)? {
            return Ok(step > 0);
        }
    }
    Err(RunFault::Restless)
}

/// Steps of each worker in its turn. Whether one of them had something to do.
fn turn<O: Opening, D: Disk>(
    book: &mut Book<O>,
    seats: &mut Vec<BookSeat>,
    stand: &mut Stand<D>,
) -> Result<bool, RunFault> {
    let mut busy = false;
    for place in 0..seats.len() {
        if work_to_idle(book, &mut seats[place], stand)? {
            busy = true;
        }
    }
    Ok(busy)
}

/// Turns of the workers, until all are idle.
pub(crate) fn work_until_idle<O: Opening, D: Disk>(
    book: &mut Book<O>,
    seats: &mut Vec<BookSeat>,
    stand: &mut Stand<D>,
) -> Result<(), RunFault> {
    for _turn in 0..MOST_TURNS {
        if !turn(book, seats, stand)? {
            return Ok(());
        }
    }
    Err(RunFault::Restless)
}
