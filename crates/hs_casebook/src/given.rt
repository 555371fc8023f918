//! What a run is given beside its script.
use crate::line::{found, is, split_word};
use crate::{CaseFault, CaseLine, Reader};
use std::alloc::Global;
use std::collections::BTreeMap;

/// How many numbers of calls a case may try in turn.
const MOST_TRIED: u64 = 1000;

/// The naming of blocks.
#[derive(Clone, Copy)]
pub enum Naming {
    Sha,
    Tail,
}

/// The numbers of calls of a peer's disk of which each is to fail in a run of its own.
#[derive(Clone, Copy)]
pub struct Each {
    pub peer: u8,
    pub first: u64,
    pub last: u64,
}

/// What a run is given: how many disks, where the case says so; the bytes of their sides, by peer,
/// the others being blank; and the numbers of the calls that fail.
#[derive(Drop)]
pub struct Given {
    pub disks: Option<u8>,
    /// How many disks of the run before are left out, those of its first peers.
    pub skip: u8,
    pub zero: BTreeMap<u8, Vec<u8>>,
    pub one: BTreeMap<u8, Vec<u8>>,
    pub disk_fails: BTreeMap<u8, Vec<u64>>,
    pub source_fails: Vec<u64>,
    pub sink_fails: Vec<u64>,
    pub each: Option<Each>,
    /// The first and the last moment of the stops that are tried, where not all are.
    pub moments: Option<(u64, u64)>,
}

/// What a line on what is given is on.
#[derive(Clone, Copy)]
enum Word {
    Disks,
    Skip,
    Zero,
    One,
    Fails,
    Each,
    Moments,
}

/// The words of these lines.
const WORDS: [(&str, Word); 7] = [
    ("disks", Word::Disks),
    ("skip", Word::Skip),
    ("zero", Word::Zero),
    ("one", Word::One),
    ("fails", Word::Fails),
    ("each", Word::Each),
    ("moments", Word::Moments),
];

impl Given {
    /// Blank disks, and no call that fails.
    pub fn new(alloc: Global) -> Given {
        Given {
            disks: None,
            skip: 0,
            zero: BTreeMap::new(alloc),
            one: BTreeMap::new(alloc),
            disk_fails: BTreeMap::new(alloc),
            source_fails: Vec::new(alloc),
            sink_fails: Vec::new(alloc),
            each: None,
            moments: None,
        }
    }

    /// Takes a line on what is given. It answers false where the line is on something else.
    pub fn take(&mut self, reader: &mut Reader, line: &CaseLine<'_>) -> bool {
        let Some(word) = found(&WORDS, line.word) else {
            return false;
        };
        match word {
            Word::Disks => self.disks = Some(reader.small(line.rest)),
            Word::Skip => self.skip = reader.small(line.rest),
            Word::Zero => add_side(reader, &mut self.zero, line.rest),
            Word::One => add_side(reader, &mut self.one, line.rest),
            Word::Fails => self.add_fails(reader, line.rest),
            Word::Each => self.each = Some(each_of(reader, line.rest)),
            Word::Moments => self.moments = Some(reader.range(line.rest)),
        }
        true
    }

    /// Takes the numbers of calls that fail, as `source N..`, `sink N..` or `P N..` say.
    fn add_fails(&mut self, reader: &mut Reader, written: &[u8]) {
        reader.spend(written.len() as u64);
        let (port, rest) = split_word(written);
        let numbers = reader.numbers(rest);
        reader.spend(numbers.len() as u64);
        if is(port, "source") {
            self.source_fails = numbers;
        } else if is(port, "sink") {
            self.sink_fails = numbers;
        } else {
            let peer = reader.small(port);
            reader.stored(self.disk_fails.insert(peer, numbers));
        }
    }
}

/// Takes the bytes of a side, as `P BYTES` says.
fn add_side(reader: &mut Reader, sides: &mut BTreeMap<u8, Vec<u8>>, written: &[u8]) {
    let (peer, rest) = split_word(written);
    let peer = reader.small(peer);
    let bytes = reader.bytes_of(rest);
    reader.stored_once(sides.insert(peer, bytes));
}

/// The calls that are tried in turn, as `P A..B` says.
fn each_of(reader: &mut Reader, written: &[u8]) -> Each {
    let (peer, rest) = split_word(written);
    let peer = reader.small(peer);
    let (first, last) = reader.range(rest);
    if last.saturating_sub(first) >= MOST_TRIED {
        reader.fail(CaseFault::TooMuch);
    }
    Each { peer, first, last }
}
