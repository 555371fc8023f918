//! Both runs, and their journals.
ghost use Rattle.std.specs.Prelude.{◌≡◌, ◌*◌, IfOk, length, vec_len};
ghost use Rattle.hs_limits.specs.Shape.{IsShape};

use crate::comparing::are_same;
use crate::driving::driven_if_calm;
use crate::fault::RunFault;
use crate::opening::opened;
use crate::script::TEXT;
use crate::settling::settled;
use hs_block::ShaNames;
use hs_core::Core;
use hs_journal::Journal;
use hs_limits::{Limits, Shape};
use hs_ports::{Disk, ListSink, ListSource, MemoryDisk, Watch};
use hs_promise::Status;
use hs_run::run_script_on;
use std::alloc::Global;
use std::test::Fail;

/// Two shards of one copy, and of two.
const ALONE: Shape = Shape {
    shards: 2,
    copies: 1,
};

const IN_PAIRS: Shape = Shape {
    shards: 2,
    copies: 2,
};

/// So many blank disks in memory.
fn blank(alloc: Global, count: u8) -> Result<Vec<MemoryDisk>, RunFault>
    ensures { IfOk result (λ disks. vec_len disks ≡ count) }
{
    let mut disks = Vec::new(alloc);
    for _peer in 0..count {
        let disk = MemoryDisk::new(alloc, Vec::new(alloc), Vec::new(alloc), Vec::new(alloc));
        match disks.push(disk) {
            Ok(()) => {}
            Err(_) => return Err(RunFault::NoMemory),
        }
    }
    Ok(disks)
}

/// What the core comes to that a book drives, and whether each operation was answered.
fn of_book<D: Disk + Drop>(
    alloc: Global,
    shape: Shape,
    disks: Vec<D>,
) -> Result<(Core, bool), RunFault>
    requires shape { IsShape shape }
    requires count { vec_len disks ≡ shape.shards * shape.copies }
{
    let (core, mut stand) = opened(alloc, shape, disks)?;
    let (core, answered) = driven_if_calm(alloc, core, &mut stand)?;
    Ok((settled(alloc, core, stand)?, answered))
}

/// What the script answers that is run line by line.
fn of_script<D: Disk>(alloc: Global, shape: Shape, disks: &mut [D]) -> Result<Journal, RunFault>
    requires shape { IsShape shape }
    requires count { length disks.old ≡ shape.shards * shape.copies }
{
    let text = Vec::from_slice(alloc, TEXT)?;
    let outcome = run_script_on(
        alloc,
        shape,
        Limits::greatest(),
        0,
        &ShaNames,
        &mut ListSource::new(alloc, text, Vec::new(alloc)),
        &mut ListSink::new(alloc, Vec::new(alloc)),
        disks,
        &mut Watch::new(),
    );
    match outcome.status {
        Status::Done => Ok(outcome.journal),
        _ => Err(RunFault::NotDone),
    }
}

/// Whether the book answered each operation, whether its journal is the script's, and how many entries
/// that has.
fn compared(alloc: Global, shape: Shape) -> Result<(bool, bool, usize), RunFault>
    requires shape { IsShape shape }
{
    let peers = shape.shards * shape.copies;
    let (core, answered) = of_book(alloc, shape, blank(alloc, peers)?)?;
    let mut disks = blank(alloc, peers)?;
    let journal = of_script(alloc, shape, disks.as_mut_slice())?;
    let entries = journal.entries();
    let same = are_same(core.journal().entries(), entries);
    Ok((answered, same, entries.len()))
}

// Ten operations; and twice that the second shard enters, the sweeps of both, and that the run is done.
#[test]
fn a_book_answers_as_the_script_at_shards_of_one_copy(rt: HostRuntime) -> Result<(), Fail> {
    assert_eq!(rt; compared(rt.alloc(), ALONE)?, (true, true, 18));
    Ok(())
}

#[test]
fn a_book_answers_as_the_script_at_shards_of_two_copies(rt: HostRuntime) -> Result<(), Fail> {
    assert_eq!(rt; compared(rt.alloc(), IN_PAIRS)?, (true, true, 18));
    Ok(())
}
