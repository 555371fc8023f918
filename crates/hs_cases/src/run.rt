//! A run of the store over ports in memory.
use hs_block::{Addresser, ShaNames, TailNames};
use hs_casebook::{CaseFault, Naming, Pass, Reader};
use hs_compare::options_of;
use hs_ports::{ListSink, ListSource, MemoryDisk, PortFault, Side, Tear, Watch};
use hs_top::{Outcome, hydra_alone, is_load};
use std::collections::BTreeMap;
use std::str::from_utf8;

/// How many disks a run may have.
const MOST_DISKS: u8 = 32;

/// What a run handed back, what was put, the last moment, and the disks.
#[derive(Drop)]
pub struct Seen {
    pub outcome: Outcome,
    pub text: Vec<u8>,
    pub moment: u64,
    pub disks: Vec<MemoryDisk>,
}

/// A stop: a moment, and how what is being written then is torn.
#[derive(Clone, Copy)]
pub struct Stop {
    pub moment: u64,
    pub tear: Tear,
}

/// A call of a peer's disk that is to fail.
#[derive(Clone, Copy)]
pub struct Failing {
    pub peer: u8,
    pub call: u64,
}

/// Runs a script over disks. None where the words can't be run over ports in memory yet.
pub fn run_over(reader: &mut Reader, pass: &Pass, disks: Vec<MemoryDisk>) -> Option<Seen> {
    match pass.naming {
        Naming::Sha => run_named(reader, &ShaNames, pass, disks),
        Naming::Tail => run_named(reader, &TailNames, pass, disks),
    }
}

/// Runs a script over disks in a naming.
fn run_named<A: Addresser>(
    reader: &mut Reader,
    naming: &A,
    pass: &Pass,
    disks: Vec<MemoryDisk>,
) -> Option<Seen> {
    let words = words_of(reader, &pass.words)?;
    if is_load(&words) {
        return None;
    }
    let mut disks = disks;
    let mut source = source_of(reader, pass);
    let mut sink = ListSink::new(reader.alloc, reader.copy(&pass.given.sink_fails));
    let mut watch = Watch::new();
    let outcome = hydra_alone(
        reader.alloc,
        &words,
        naming,
        &mut source,
        &mut sink,
        &mut disks,
        &mut watch,
    );
    Some(Seen {
        outcome,
        text: reader.copy(sink.bytes()),
        moment: watch.now(),
        disks,
    })
}

/// The source of a run.
fn source_of(reader: &mut Reader, pass: &Pass) -> ListSource {
    let script = reader.copy(&pass.script);
    let fails = reader.copy(&pass.given.source_fails);
    ListSource::new(reader.alloc, script, fails)
}

/// The words of a command line, parted by spaces. None where they are no text.
fn words_of(reader: &mut Reader, written: &[u8]) -> Option<Vec<String>> {
    let mut words = Vec::new(reader.alloc);
    for word in &reader.split(written, b' ') {
        let text = String::from_str(reader.alloc, from_utf8(word).ok()?);
        reader.stored(words.push(text.ok()?));
    }
    Some(words)
}

/// How many disks a run has: as many as it is given, or as its words ask for, or one.
fn count_of(pass: &Pass) -> u8 {
    if let Some(disks) = pass.given.disks {
        return disks.min(MOST_DISKS);
    }
    match asked_for(&pass.words) {
        Some(disks) if disks <= MOST_DISKS => disks,
        _ => 1,
    }
}

/// How many disks words ask for.
fn asked_for(words: &[u8]) -> Option<u8> {
    let options = options_of(words)?;
    options.shards.checked_mul(options.copies)
}

/// The disks that a run is begun on: those that a stop of the run before may leave, or blank ones,
/// but for the sides that the run is given, and without the first disks where some are left out. Of one
/// disk a further call fails.
pub fn disks_of(
    reader: &mut Reader,
    pass: &Pass,
    before: Option<(&Seen, Stop)>,
    failing: Option<Failing>,
) -> Vec<MemoryDisk> {
    let mut disks = Vec::new(reader.alloc);
    for peer in 0..count_of(pass) {
        let zero = side_of(reader, pass, &pass.given.zero, before, peer, Side::Zero);
        let one = side_of(reader, pass, &pass.given.one, before, peer, Side::One);
        let fails = fails_of(reader, pass, peer, failing);
        let disk = MemoryDisk::new(reader.alloc, zero, one, fails);
        reader.stored(disks.push(disk));
    }
    disks
}

/// The bytes of a side that a run is begun on.
fn side_of(
    reader: &mut Reader,
    pass: &Pass,
    given: &BTreeMap<u8, Vec<u8>>,
    before: Option<(&Seen, Stop)>,
    peer: u8,
    side: Side,
) -> Vec<u8> {
    if let Some(bytes) = given.get(&peer) {
        return reader.copy(bytes);
    }
    match before {
        None => Vec::new(reader.alloc),
        Some((seen, stop)) => {
            left_at(
                reader,
                seen,
                peer.saturating_add(pass.given.skip),
                side,
                stop,
            )
        }
    }
}

/// What a stop of a run may leave on a side of a peer's disk.
fn left_at(reader: &mut Reader, seen: &Seen, peer: u8, side: Side, stop: Stop) -> Vec<u8> {
    let Some(disk) = seen.disks.get(usize::from(peer)) else {
        return Vec::new(reader.alloc);
    };
    match disk.image_at(side, stop.moment, stop.tear) {
        Ok(bytes) => bytes,
        Err(fault) => {
            if let PortFault::NoMemory = fault {
                reader.fail(CaseFault::NoMemory);
            }
            Vec::new(reader.alloc)
        }
    }
}

/// The bytes on a side of a peer's disk behind a run, where there is such a disk.
pub fn left_on(reader: &mut Reader, seen: &Seen, peer: u8, side: Side) -> Option<Vec<u8>> {
    if usize::from(peer) >= seen.disks.len() {
        return None;
    }
    Some(left_at(reader, seen, peer, side, end_of(seen)))
}

/// The stop behind the last call of a run, which leaves what a read gives.
pub fn end_of(seen: &Seen) -> Stop {
    Stop {
        moment: seen.moment.saturating_add(1),
        tear: Tear::New,
    }
}

/// The numbers of the calls of a peer's disk that fail.
fn fails_of(reader: &mut Reader, pass: &Pass, peer: u8, more: Option<Failing>) -> Vec<u64> {
    let mut fails = match pass.given.disk_fails.get(&peer) {
        Some(numbers) => reader.copy(numbers),
        None => Vec::new(reader.alloc),
    };
    if let Some(failing) = more {
        if failing.peer == peer {
            reader.stored(fails.push(failing.call));
        }
    }
    fails
}
