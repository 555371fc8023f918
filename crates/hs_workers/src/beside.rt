//! Workers, writers and the deleter beside each other, each in a thread of its own.
ghost use Rattle.std.specs.Prelude.{◌≡◌, ◌<◌, ℕ, All, length, slice_index_or, vec_len};
ghost use Rattle.hs_workers.specs.Elements.{CanBegin, HasCome};

use crate::deleter::deleter_work;
use crate::peer::peer_work;
use crate::writer::writer_work;
use crate::{Element, Shared};
use hs_block::Addresser;
use hs_desk::{Clerk, Desk, Gate};
use hs_ports::Disk;
use std::alloc::Global;
use std::sync::Wait;
use std::thread;
use std::thread::Threads;

/// Lets all work, each in a thread of its own, and returns once all have returned. What each came to stands in
/// its element.
pub fn all_work<
    H: Threads + Wait + Sync,
    A: Addresser + Sync,
    B: Desk + Clerk + Send,
    D: Disk + Send,
    T: Gate + Sync,
>(
    alloc: Global,
    rt: &H,
    naming: &A,
    book: &Shared<B>,
    elements: &mut Vec<Element<B::Seat, B::Pass, D>>,
    seed: u64,
    files: u32,
    gate: &T,
)
where
    B::Seat: Send,
    B::Pass: Send,
    requires { All (CanBegin B.Seat.noted B.Pass.noted D.tells D.size D.stands) elements.old.items }

    ensures count { vec_len elements.new ≡ vec_len elements.old }
    ensures each { (i : ℕ) (d : _) → i < vec_len elements.old
        → HasCome B.Seat.noted B.Pass.noted D.tells D.size D.stands D.faults (A.name naming.now) seed files
        (slice_index_or elements.old.items i d) (slice_index_or elements.new.items i d) }
{
    work_beside(
        alloc,
        rt,
        naming,
        book,
        elements.as_mut_slice(),
        seed,
        files,
        gate,
    );
}

/// The same over a slice.
fn work_beside<
    H: Threads + Wait + Sync,
    A: Addresser + Sync,
    B: Desk + Clerk + Send,
    D: Disk + Send,
    T: Gate + Sync,
>(
    alloc: Global,
    rt: &H,
    naming: &A,
    book: &Shared<B>,
    elements: &mut [Element<B::Seat, B::Pass, D>],
    seed: u64,
    files: u32,
    gate: &T,
)
where
    B::Seat: Send,
    B::Pass: Send,
    requires { All (CanBegin B.Seat.noted B.Pass.noted D.tells D.size D.stands) elements.old }

    ensures each { (i : ℕ) (d : _) → i < length elements.old
        → HasCome B.Seat.noted B.Pass.noted D.tells D.size D.stands D.faults (A.name naming.now) seed files
        (slice_index_or elements.old i d) (slice_index_or elements.new i d) }
{
    let count = elements.len();
    if count == 0 {
        return;
    }
    thread::for_each_mut(
        rt,
        elements,
        count,
        &|_, element| {
            work(alloc, rt, naming, book, element, seed, files, gate);
        },
    );
}

/// The work of one.
fn work<H: Wait, A: Addresser, B: Desk + Clerk, D: Disk, T: Gate>(
    alloc: Global,
    rt: &H,
    naming: &A,
    book: &Shared<B>,
    element: &mut Element<B::Seat, B::Pass, D>,
    seed: u64,
    files: u32,
    gate: &T,
)
    requires { CanBegin B.Seat.noted B.Pass.noted D.tells D.size D.stands element.old }
    ensures { HasCome B.Seat.noted B.Pass.noted D.tells D.size D.stands D.faults (A.name naming.now) seed files
        element.old element.new }
{
    match element {
        Element::Worker { worker } => {
            worker.ended = peer_work(
                rt,
                book,
                &mut worker.seat,
                &mut worker.log,
                &mut worker.disk,
                &mut worker.watch,
                gate,
            );
        }
        Element::Writer { writer } => {
            writer.ended = writer_work(
                alloc,
                rt,
                naming,
                book,
                &mut writer.pass,
                writer.number,
                seed,
                files,
            );
        }
        Element::Deleter { deleter } => {
            deleter.ended = deleter_work(rt, book, &mut deleter.pass);
        }
    }
}
