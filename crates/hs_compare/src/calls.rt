//! Cases of calls of a disk in memory: what each answers, and what a stop may leave.
use crate::judge::Judge;
use crate::pairs::judge_answers;
use crate::text::Text;
use hs_casebook::{CaseFault, CaseLine, Given, Reader, found, is, split_word};
use hs_ports::{Disk, MemoryDisk, PortFault, Side, Tear, Watch};
use std::alloc::Global;

/// The peer whose disk a case of calls is on.
const PEER: u8 = 0;

/// A disk, and the watch that its calls raise.
#[derive(Drop)]
pub(crate) struct Calls {
    disk: MemoryDisk,
    watch: Watch,
}

/// A call of a disk, or what a stop leaves.
#[derive(Clone, Copy)]
enum Verb {
    Len,
    Read,
    Write,
    Cut,
    Sync,
    Image,
}

/// The words for calls.
const VERBS: [(&str, Verb); 6] = [
    ("len", Verb::Len),
    ("read", Verb::Read),
    ("write", Verb::Write),
    ("cut", Verb::Cut),
    ("sync", Verb::Sync),
    ("image", Verb::Image),
];

/// The words for how what is being written at a stop is torn, but for `fill`.
const TEARS: [(&str, Tear); 3] = [("old", Tear::Old), ("new", Tear::New), ("half", Tear::Half)];

/// Judges the lines behind the first one, `disk`: what the disk is given, and then calls in pairs
/// with what has to come of each.
pub fn judge_calls(judge: &mut Judge, lines: &[CaseLine<'_>]) {
    let mut given = Given::new(judge.reader.alloc);
    let calls = take_given(&mut judge.reader, &mut given, lines);
    if !judge.has_fault() {
        let mut disk = Some(calls_of(judge.reader.alloc, &mut given));
        judge_answers(judge, &mut disk, calls);
    }
}

/// Takes the lines at the front that say what the disk is given, and gives those behind them.
fn take_given<'a, 'b>(
    reader: &mut Reader,
    given: &mut Given,
    lines: &'b [CaseLine<'a>],
) -> &'b [CaseLine<'a>] {
    for end in 0..lines.len() {
        let line = &lines[end];
        if !is_given(line) {
            return &lines[end..];
        }
        reader.at = line.at;
        given.take(reader, line);
    }
    &lines[lines.len()..]
}

/// Whether a line says what the disk is given.
fn is_given(line: &CaseLine<'_>) -> bool {
    line.is("zero") || line.is("one") || line.is("fails")
}

/// The disk that is given.
fn calls_of(alloc: Global, given: &mut Given) -> Calls {
    let zero = given.zero.remove(&PEER).unwrap_or(Vec::new(alloc));
    let one = given.one.remove(&PEER).unwrap_or(Vec::new(alloc));
    let fails = given.disk_fails.remove(&PEER).unwrap_or(Vec::new(alloc));
    Calls {
        disk: MemoryDisk::new(alloc, zero, one, fails),
        watch: Watch::new(),
    }
}

impl Calls {
    /// Makes the call that a line says, and puts its answer.
    pub(crate) fn put_answer(&mut self, reader: &mut Reader, asked: &CaseLine<'_>, out: &mut Text) {
        let (side, rest) = split_word(asked.rest);
        let side = reader.side(side);
        reader.spend(1000);
        match found(&VERBS, asked.word) {
            Some(verb) => self.put_call(reader, verb, side, rest, out),
            None => reader.fail(CaseFault::UnknownWord),
        }
    }

    /// Makes a call on a side, and puts its answer.
    fn put_call(
        &mut self,
        reader: &mut Reader,
        verb: Verb,
        side: Side,
        rest: &[u8],
        out: &mut Text,
    ) {
        let (first, behind) = split_word(rest);
        match verb {
            Verb::Len => self.put_length(reader, side, out),
            Verb::Read => self.put_read(reader, side, first, behind, out),
            Verb::Write => self.put_written(reader, side, first, behind, out),
            Verb::Cut => self.put_cut(reader, side, rest, out),
            Verb::Sync => self.put_synced(reader, side, out),
            Verb::Image => self.put_image(reader, side, first, behind, out),
        }
    }

    /// Puts the length of a side.
    fn put_length(&mut self, reader: &Reader, side: Side, out: &mut Text) {
        if reader.has_failed() {
            return;
        }
        match self.disk.len(side) {
            Ok(length) => out.put_number(length),
            Err(fault) => put_fault(fault, out),
        }
    }

    /// Reads, and puts what a read gives.
    fn put_read(
        &mut self,
        reader: &mut Reader,
        side: Side,
        at: &[u8],
        most: &[u8],
        out: &mut Text,
    ) {
        let at = reader.number(at);
        let most = usize::from(reader.small(most));
        if reader.has_failed() {
            return;
        }
        let mut into = Vec::new(reader.alloc);
        match read(&mut self.disk, side, at, most, &mut into) {
            Ok(count) if count == into.len() => out.put_hex("", &into),
            Ok(count) => out.put_form("# of #", &[count as u64, into.len() as u64]),
            Err(fault) => put_fault(fault, out),
        }
    }

    /// Writes, and puts whether that was done.
    fn put_written(
        &mut self,
        reader: &mut Reader,
        side: Side,
        at: &[u8],
        bytes: &[u8],
        out: &mut Text,
    ) {
        let at = reader.number(at);
        let bytes = reader.bytes_of(bytes);
        if reader.has_failed() {
            return;
        }
        let written = write(&mut self.disk, &mut self.watch, side, at, &bytes);
        put_done(written, out);
    }

    /// Cuts to a length, and puts whether that was done.
    fn put_cut(&mut self, reader: &mut Reader, side: Side, length: &[u8], out: &mut Text) {
        let length = reader.number(length);
        if reader.has_failed() {
            return;
        }
        put_done(cut(&mut self.disk, &mut self.watch, side, length), out);
    }

    /// Syncs, and puts whether that was done.
    fn put_synced(&mut self, reader: &Reader, side: Side, out: &mut Text) {
        if reader.has_failed() {
            return;
        }
        put_done(self.disk.sync(&mut self.watch, side), out);
    }

    /// Puts what a stop at a moment leaves: no call, but its outcome.
    fn put_image(
        &mut self,
        reader: &mut Reader,
        side: Side,
        moment: &[u8],
        tear: &[u8],
        out: &mut Text,
    ) {
        let moment = reader.number(moment);
        let tear = tear_of(reader, tear);
        if reader.has_failed() {
            return;
        }
        match self.disk.image_at(side, moment, tear) {
            Ok(image) => out.put_hex("", &image),
            Err(fault) => put_fault(fault, out),
        }
    }
}

/// How what is being written at a stop is torn.
fn tear_of(reader: &mut Reader, word: &[u8]) -> Tear {
    if let Some(tear) = found(&TEARS, word) {
        return tear;
    }
    let (fill, byte) = split_word(word);
    if !is(fill, "fill") {
        reader.fail(CaseFault::UnknownWord);
    }
    Tear::Fill(reader.small(byte))
}

/// Reads, where at least one byte is asked for.
fn read<D: Disk>(
    disk: &mut D,
    side: Side,
    at: u64,
    most: usize,
    into: &mut Vec<u8>,
) -> Result<usize, PortFault> {
    if most == 0 {
        return Ok(0);
    }
    disk.read(side, at, most, into)
}

/// Writes from a place on, which is moved to the end where it is behind it. It asks for the length
/// first, which is a call too.
fn write<D: Disk>(
    disk: &mut D,
    watch: &mut Watch,
    side: Side,
    at: u64,
    bytes: &[u8],
) -> Result<(), PortFault> {
    match disk.len(side) {
        Ok(length) => disk.write_at(watch, side, at.min(length), bytes),
        Err(fault) => Err(fault),
    }
}

/// Cuts to a length, where it is not behind the end. It asks for the length first, which is a call
/// too.
fn cut<D: Disk>(disk: &mut D, watch: &mut Watch, side: Side, length: u64) -> Result<(), PortFault> {
    match disk.len(side) {
        Ok(most) => disk.cut(watch, side, length.min(most)),
        Err(fault) => Err(fault),
    }
}

/// Puts whether a call was done.
fn put_done(answer: Result<(), PortFault>, out: &mut Text) {
    match answer {
        Ok(()) => out.put("ok"),
        Err(fault) => put_fault(fault, out),
    }
}

/// Puts why a call was not done.
fn put_fault(fault: PortFault, out: &mut Text) {
    match fault {
        PortFault::Failed => out.put("failed"),
        PortFault::NoMemory => out.put("nomemory"),
    }
}
