//! A reader as a source, and a writer as a sink.
ghost use Rattle.std.specs.Prelude.{◌≡◌, ◌+◌, ◌<◌, ◌≤◌, IsTrue, IfOk, IfErr, OnErr, None, drop, length, take};
ghost use Rattle.std.specs.Io.KnownBytes.{Appends, Consumes, IsAtEnd, Keeps};
ghost use Rattle.hs_ports.specs.Source.{Took};

use crate::fault_count::FaultCount;
use crate::retry::{read_some, write_some};
use hs_ports::{PortFault, Sink, Source, Watch};
use std::alloc::{AllocError, Global};
use std::io;
use std::io::{Read, Write};

/// The most bytes that one call reads.
const PIECE: usize = 65536;

/// How many of the last bytes are kept: more than a line has, and what may be taken behind it.
const KEPT: usize = 5 * PIECE;

/// How many are kept at first. The room for them grows as they come, so that a short script needs
/// little of it.
const FIRST_KEPT: usize = 4096;

/// A reader as a source, which doesn't tell its bytes. What it reads it reads into a ring, so that
/// the last bytes are there where a line of them is bad.
#[derive(Drop)]
pub struct ReaderSource<R> {
    reader: R,
    ring: Vec<u8>,
    at: usize,
    is_round: bool,
    count: FaultCount,
    /// Why the last call failed that did, as the system says.
    pub reason: Option<io::Error>,
    ghost some: { at < length ring.items },
}

impl<R: Read + Drop> ReaderSource<R> {
    /// A source that has not failed.
    pub fn new(alloc: Global, reader: R) -> Result<ReaderSource<R>, AllocError>
        ensures faults { IfOk result (λ source.
            ⟦<ReaderSource<R> as Source>⟧.faults source ≡ 0) }
    {
        Ok(ReaderSource {
            reader,
            ring: vec![in alloc; 0u8; FIRST_KEPT]?,
            at: 0,
            is_round: false,
            count: FaultCount::new(),
            reason: None,
        })
    }

    /// The last bytes that were read, in their order, and whether there were others before them.
    pub fn last_bytes(&self) -> Result<(Vec<u8>, bool), AllocError> {
        let mut bytes = Vec::with_capacity(*self.ring.allocator(), self.ring.len())?;
        if self.is_round {
            bytes.extend_from_slice(&self.ring[self.at..])?;
        }
        bytes.extend_from_slice(&self.ring[..self.at])?;
        Ok((bytes, self.is_round))
    }

    /// How often it has failed; at `u64::MAX` the count stands still.
    pub fn faults(&self) -> u64
        ensures value { result ≡ ⟦<ReaderSource<R> as Source>⟧.faults self.now }
    {
        self.count.faults
    }
}

// Gives a ring half as much room more, where it has not all yet and there is memory for it.
fn grow(ring: &mut Vec<u8>) -> bool
    requires { 0 < length ring.old.items }
    ensures grown { IsTrue result → length ring.old.items < length ring.new.items }
    ensures kept { length ring.old.items ≤ length ring.new.items }
{
    let size = ring.len();
    let more = (size / 2).max(FIRST_KEPT);
    size < KEPT && ring.resize((size + more).min(KEPT), 0).is_ok()
}

// Reads up to `max` bytes into the ring from a place on, and appends what it got, or nothing.
fn take_through<R: Read>(
    reader: &mut R,
    ring: &mut Vec<u8>,
    at: usize,
    max: usize,
    into: &mut Vec<u8>,
    reason: &mut Option<io::Error>,
) -> Result<usize, PortFault>
    requires place { at < length ring.old.items }
    requires max { 0 < max }
    ensures taken { IfOk result (λ n. Took None into.old.items None into.new.items max n) }
    ensures within { IfOk result (λ n. at + n ≤ length ring.old.items) }
    ensures given { IfOk result (λ n. Consumes (R.remaining reader.old) (R.remaining reader.new)
        (drop (length into.old.items) into.new.items)) }
    ensures ended { IfOk result (λ n. n ≡ 0 → IsAtEnd (R.remaining reader.new)) }
    ensures untaken { OnErr result (into.new.items ≡ into.old.items) }
    ensures kept { OnErr result (Keeps (R.remaining reader.old) (R.remaining reader.new)) }
    ensures same_size { length ring.new.items ≡ length ring.old.items }
{
    let most = max.min(PIECE).min(ring.len() - at);
    take_piece(reader, &mut ring[at..at + most], into, reason)
}

// Reads into the piece, and appends what it got, or nothing.
#[tactic(auto, using(crate::proofs::StreamLemmas::appended, crate::proofs::StreamLemmas::kept_same))]
fn take_piece<R: Read>(
    reader: &mut R,
    piece: &mut [u8],
    into: &mut Vec<u8>,
    reason: &mut Option<io::Error>,
) -> Result<usize, PortFault>
    requires { 0 < length piece.old }
    ensures taken { IfOk result (λ n.
        Took None into.old.items None into.new.items (length piece.old) n) }
    ensures given { IfOk result (λ n. Consumes (R.remaining reader.old) (R.remaining reader.new)
        (drop (length into.old.items) into.new.items)) }
    ensures ended { IfOk result (λ n. n ≡ 0 → IsAtEnd (R.remaining reader.new)) }
    ensures untaken { OnErr result (into.new.items ≡ into.old.items) }
    ensures kept { OnErr result (Keeps (R.remaining reader.old) (R.remaining reader.new)) }
{
    if into.reserve(piece.len()).is_err() {
        return Err(PortFault::NoMemory);
    }
    match read_some(reader, piece) {
        Ok(n) => match into.extend_from_slice(&piece[..n]) {
            Ok(()) => Ok(n),
            Err(_) => unreachable!(),
        },
        Err(error) => {
            *reason = Some(error);
            Err(PortFault::Failed)
        }
    }
}

impl<R: Read> Source for ReaderSource<R> {
    ghost use Rattle.std.specs.Prelude.{None};

    ghost left = { λ s. None };

    ghost faults = { λ s. s.count.faults };

    fn take(&mut self, max: usize, into: &mut Vec<u8>) -> Result<usize, PortFault> {
        let answer = take_through(
            &mut self.reader,
            &mut self.ring,
            self.at,
            max,
            into,
            &mut self.reason,
        );
        if let Ok(n) = answer {
            self.at += n;
            if self.at == self.ring.len() && (self.is_round || !grow(&mut self.ring)) {
                self.at = 0;
                self.is_round = true;
            }
        }
        self.count.counted(answer)
    }
}

/// A writer as a sink, which doesn't tell the bytes that it got.
#[derive(Drop)]
pub struct WriterSink<W> {
    writer: W,
    count: FaultCount,
    /// Why the last call failed that did, as the system says.
    pub reason: Option<io::Error>,
}

impl<W: Write> WriterSink<W> {
    /// A sink that has not failed.
    pub fn new(writer: W) -> WriterSink<W>
        ensures faults { ⟦<WriterSink<W> as Sink>⟧.faults result ≡ 0 }
    {
        WriterSink {
            writer,
            count: FaultCount::new(),
            reason: None,
        }
    }

    /// How often it has failed; at `u64::MAX` the count stands still.
    pub fn faults(&self) -> u64
        ensures value { result ≡ ⟦<WriterSink<W> as Sink>⟧.faults self.now }
    {
        self.count.faults
    }
}

// Puts a front of the piece, at least one byte of it.
fn put_into<W: Write>(
    writer: &mut W,
    piece: &[u8],
    reason: &mut Option<io::Error>,
) -> Result<usize, PortFault>
    ensures some { IfOk result (λ n. 0 < n) }
    ensures within { IfOk result (λ n. n ≤ length piece.now) }
    ensures taken { IfOk result (λ n.
        Appends (W.contents writer.old) (W.contents writer.new) (take n piece.now)) }
    ensures not_memory { IfErr result (λ fault. fault ≡ PortFault.Failed) }
{
    match write_some(writer, piece) {
        Ok(n) => Ok(n),
        Err(error) => {
            *reason = Some(error);
            Err(PortFault::Failed)
        }
    }
}

impl<W: Write> Sink for WriterSink<W> {
    ghost use Rattle.std.specs.Prelude.{None};

    ghost got = { λ s. None };

    ghost faults = { λ s. s.count.faults };

    fn put(&mut self, watch: &mut Watch, piece: &[u8]) -> Result<usize, PortFault> {
        watch.raise();
        if piece.is_empty() {
            return Ok(0);
        }
        let answer = put_into(&mut self.writer, piece, &mut self.reason);
        self.count.counted(answer)
    }
}
