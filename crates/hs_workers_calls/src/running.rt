//! Loads of three writers and the deleter over two peers, each in a thread of its own.
use crate::book::Book;
use crate::pass::{BookPass, BookSeat};
use crate::team::{SHAPE, Team, add_askers, blank, workers};
use hs_block::ShaNames;
use hs_desk::OpenGate;
use hs_entry::Entry;
use hs_model::{Deed, Reply};
use hs_peerlog::PeerLog;
use hs_ports::{MemoryDisk, Watch};
use hs_shared::SharedBytes;
use hs_workers::{Element, Shared, all_work};
use std::alloc::{AllocError, Global};
use std::sync::Wait;
use std::test::Fail;
use std::thread::Threads;

type Part = Element<BookSeat, BookPass, MemoryDisk>;

/// A load of four files a writer, where the calls of these numbers fail on the disk of peer 1.
fn load<H: Threads + Wait + Sync>(
    alloc: Global,
    rt: &H,
    fails: &[u64],
) -> Result<Team<MemoryDisk>, AllocError> {
    let mut team = workers(alloc, blank(alloc, &[])?, blank(alloc, fails)?)?;
    add_askers(alloc, &mut team, 3)?;
    let book = Shared::new(Book::new(alloc), 4);
    all_work(alloc, rt, &ShaNames, &book, &mut team, 7, 4, &OpenGate);
    Ok(team)
}

/// How many of these answers are Stale, and how many ShardFull.
fn refusals(answers: &[(u64, Deed, Reply)]) -> (u64, u64) {
    let mut stale = 0u64;
    let mut full = 0u64;
    for (_, _, reply) in answers {
        match reply {
            Reply::Stale { .. } => stale = stale.saturating_add(1),
            Reply::ShardFull { .. } => full = full.saturating_add(1),
            _ => {}
        }
    }
    (stale, full)
}

/// How many files a writer rooted, how many it kept, how often it was told Stale, and how often ShardFull.
/// Nothing but zeros of another, and of one that ended with a fault.
fn told_of(part: &Part) -> [u64; 4] {
    let Element::Writer { writer } = part else {
        return [0; 4];
    };
    let Ok(sum) = writer.ended else {
        return [0; 4];
    };
    let (stale, full) = refusals(writer.pass.token.kept.as_slice());
    [u64::from(sum.files), u64::from(sum.kept), stale, full]
}

/// How many answers one who asks has kept.
fn answers(part: &Part) -> usize {
    match part {
        Element::Worker { .. } => 0,
        Element::Writer { writer } => writer.pass.token.kept.len(),
        Element::Deleter { deleter } => deleter.pass.token.kept.len(),
    }
}

/// Whether these are the numbers from 1 on.
fn are_numbered(numbers: &[u64]) -> bool {
    let mut next = 1u64;
    for number in numbers {
        if *number != next {
            return false;
        }
        next = next.saturating_add(1);
    }
    true
}

/// Whether the entry of a number is a block of these bytes, on the disk of a peer that is opened anew.
fn has_block(
    alloc: Global,
    disk: &mut MemoryDisk,
    peer: u8,
    number: u64,
    bytes: &SharedBytes,
) -> bool {
    let mut watch = Watch::new();
    let Ok(log) = PeerLog::recover(alloc, disk, &mut watch, SHAPE, peer) else {
        return false;
    };
    match log.read_entry(disk, number) {
        Ok(Some(Entry::Block { bytes: found, .. })) => found.as_slice() == bytes.as_slice(),
        _ => false,
    }
}

/// Whether a worker returned without a fault and stored so many entries, and its disk has each block that it
/// showed, which is one of each.
fn has_stored(alloc: Global, part: &mut Part, peer: u8, entries: usize) -> bool {
    let Element::Worker { worker } = part else {
        return false;
    };
    let slip = &worker.seat.slip;
    if worker.ended.is_err() || slip.stored.len() != entries || slip.shown.len() != entries {
        return false;
    }
    for (number, bytes) in slip.shown.as_slice() {
        if !has_block(alloc, &mut worker.disk, peer, *number, bytes) {
            return false;
        }
    }
    are_numbered(slip.stored.as_slice())
}

/// Whether a worker returned without a fault, and the last number that it stored is a 0.
fn has_failed(part: &Part) -> bool {
    let Element::Worker { worker } = part else {
        return false;
    };
    worker.ended.is_ok() && worker.seat.slip.stored.as_slice().last() == Some(&0)
}

/// What is told of the three writers, and whether all else is as it should be: the deleter has four answers,
/// and each peer has an entry for each answer but that of an opening.
fn whole<H: Threads + Wait + Sync>(
    alloc: Global,
    rt: &H,
) -> Result<([[u64; 4]; 3], bool), AllocError> {
    let mut team = load(alloc, rt, &[])?;
    let [zero, one, first, second, third, deleter] = team.as_mut_slice() else {
        return Err(AllocError);
    };
    let even = answers(first)
        .saturating_add(answers(third))
        .saturating_add(2);
    let odd = answers(second).saturating_sub(1);
    let stored = has_stored(alloc, zero, 0, even) && has_stored(alloc, one, 1, odd);
    Ok((
        [told_of(first), told_of(second), told_of(third)],
        stored && answers(deleter) == 4,
    ))
}

/// What is told of writers 0 and 2, and whether all else is as it should be, where the disk of peer 1 fails:
/// its worker has a last 0, writer 1 is refused, and the deleter has four answers.
fn failing<H: Threads + Wait + Sync>(
    alloc: Global,
    rt: &H,
) -> Result<([[u64; 4]; 2], bool), AllocError> {
    let mut team = load(alloc, rt, &[40])?;
    let [_, one, first, second, third, deleter] = team.as_mut_slice() else {
        return Err(AllocError);
    };
    let refused = told_of(second)[3] > 0;
    Ok((
        [told_of(first), told_of(third)],
        has_failed(one) && refused && answers(deleter) == 4,
    ))
}

#[test]
fn each_writer_has_its_files_and_each_peer_its_entries(rt: HostRuntime) -> Result<(), Fail> {
    let (writers, others) = whole(rt.alloc(), &rt)?;
    assert_eq!(rt; writers, [[4, 3, 2, 0], [4, 3, 0, 0], [3, 2, 0, 1]]);
    assert_eq!(rt; others, true);
    Ok(())
}

#[test]
fn a_disk_that_fails_is_told_and_leaves_the_others(rt: HostRuntime) -> Result<(), Fail> {
    let (writers, others) = failing(rt.alloc(), &rt)?;
    assert_eq!(rt; writers, [[4, 3, 2, 0], [3, 2, 0, 1]]);
    assert_eq!(rt; others, true);
    Ok(())
}
