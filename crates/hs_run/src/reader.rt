//! The lines of a source, one at a time.
ghost use Rattle.std.specs.Prelude.{◌≡◌, ◌+◌, ◌<◌, ◌≤◌, IsTrue, IfOk, IfSome, IfNone, IfErr, OnOk, OnErr, IsOkUnless, [], length, vec_len};
ghost use Rattle.hs_run.specs.Faults.{SourceCause};
ghost use Rattle.hs_run.specs.Lines.{HasNoFeed, IsFeedAt, Fills, Stuck, Gathers, Halts};

use crate::stop::Stop;
use hs_ports::{PortFault, Source};
use hs_script::LONGEST_LINE;
use memchr::memchr;
use std::alloc::Global;
use std::mem;

/// How many bytes are asked of the source at once.
const CHUNK: u64 = 65_536;

/// The place of the first line feed at or after `from`.
fn feed_from(bytes: &[u8], from: usize) -> Option<usize>
    requires { from ≤ length bytes.now }
    ensures found { IfSome result (IsFeedAt bytes.now from) }
    ensures none { IfNone result (HasNoFeed bytes.now from (length bytes.now)) }
{
    match memchr(b'\n', &bytes[from..]) {
        Some(at) => Some(from + at),
        None => None,
    }
}

/// Takes a piece of the source. False at the end of the input. `budget` is how many bytes may still
/// come.
fn fill<S: Source>(source: &mut S, buffer: &mut Vec<u8>, budget: &mut u64) -> Result<bool, Stop>
    ensures filled { IfOk result (λ more. Fills more (S.left source.old) buffer.old.items budget.old
        (S.left source.new) buffer.new.items budget.new) }
    ensures stuck { IfErr result (λ stop. Stuck stop (S.left source.old) buffer.old.items budget.old
        (S.left source.new) buffer.new.items budget.new) }
    ensures cause { SourceCause (S.faults source.old) (S.faults source.new) result }
{
    let max = (*budget).min(CHUNK).max(1) as usize;
    match source.take(max, buffer) {
        Ok(count) => {
            if count == 0 {
                return Ok(false);
            }
            if *budget == 0 {
                return Err(Stop::InputFull);
            }
            *budget -= count as u64;
            Ok(true)
        }
        Err(PortFault::Failed) => Err(Stop::ReadFault),
        Err(PortFault::NoMemory) => Err(Stop::NoMemory),
    }
}

/// Takes from the source until a line feed stands in the buffer, which has none at first: its
/// place, or None where the input ends before one.
fn gather<S: Source>(
    source: &mut S,
    buffer: &mut Vec<u8>,
    budget: &mut u64,
) -> Result<Option<usize>, Stop>
    requires { HasNoFeed buffer.old.items 0 (vec_len buffer.old) }
    ensures gathered { IfOk result (λ found. Gathers found (S.left source.old) buffer.old.items
        budget.old (S.left source.new) buffer.new.items budget.new) }
    ensures halted { IfErr result (λ stop. Halts stop (S.left source.old) buffer.old.items
        budget.old (S.left source.new) buffer.new.items budget.new) }
    ensures cause { SourceCause (S.faults source.old) (S.faults source.new) result }
{
    'gathering: loop {
        let from = buffer.len();
        if from > LONGEST_LINE {
            return Err(Stop::BadLine);
        }
        if !fill(source, buffer, budget)? {
            return Ok(None);
        }
        let found = feed_from(buffer.as_slice(), from);
        if found.is_some() {
            return Ok(found);
        }
    }
}

/// What was taken of a source and not yet read, with the current line in front of it. The room that
/// the buffer and its spare have grown to is kept, so that each byte is moved once at most.
#[derive(Drop)]
pub(crate) struct Reader {
    buffer: Vec<u8>,
    spare: Vec<u8>,
    start: usize,
    end: usize,
    rest: usize,
    budget: u64,
    ended: bool,
    ghost started: { start ≤ end },
    ghost within: { end ≤ rest },
    ghost held: { rest ≤ vec_len buffer },
}

impl Reader {
    ghost use Rattle.std.specs.Prelude.{false, true, nat_lt, ◌-◌};
    ghost use Rattle.hs_run.specs.Reader.{
      Reads,
      Spends,
      line_of,
      held_of,
      pending,
      left_lines,
      cost,
    };

    /// A reader that takes at most `budget` bytes.
    pub(crate) fn new(alloc: Global, budget: u64) -> Reader
        ensures held { held_of result ≡ [] }
        ensures ended { result.ended ≡ false }
        ensures cost { cost result ≡ budget }
    {
        Reader {
            buffer: Vec::new(alloc),
            spare: Vec::new(alloc),
            start: 0,
            end: 0,
            rest: 0,
            budget,
            ended: false,
        }
    }

    /// The current line, without its line feed.
    pub(crate) fn line(&self) -> &[u8]
        ensures { result.now ≡ line_of self.now }
    {
        &self.buffer[self.start..self.end]
    }

    /// Goes on to the next line. False where there is none. Once the input has ended nothing more
    /// is taken.
    pub(crate) fn advance<S: Source>(&mut self, source: &mut S) -> Result<bool, Stop>
        requires { IsTrue self.old.ended → IfSome (pending self.old (S.left source.old))
            (λ all. all ≡ []) }
        ensures read { IfOk result (λ more. Reads more (left_lines self.old (S.left source.old))
            (line_of self.new) (left_lines self.new (S.left source.new))) }
        ensures spends { IfOk result (λ more. Spends self.new.ended
            (pending self.old (S.left source.old)) (pending self.new (S.left source.new))
            (cost self.old) (cost self.new) (cost self.old - cost self.new)) }
        ensures shorter { IfOk result (λ more. IsTrue more → cost self.new < cost self.old) }
        ensures ended { IfOk result (λ more. IsTrue self.new.ended → IfSome
            (pending self.new (S.left source.new)) (λ all. all ≡ [])) }
        ensures stays { self.new.ended ≡ false → self.old.ended ≡ false }
        ensures still { OnErr result (self.old.ended ≡ false) }
        ensures halted { IfErr result (λ stop. Halts stop (S.left source.old) (held_of self.old)
            self.old.budget (S.left source.new) (held_of self.new) self.new.budget) }
        ensures cause { SourceCause (S.faults source.old) (S.faults source.new) result }
    {
        let found = feed_from(self.buffer.as_slice(), self.rest);
        if let Some(at) = found {
            self.start = self.rest;
            self.end = at;
            self.rest = at + 1;
            return Ok(true);
        }
        if self.ended {
            return Ok(false);
        }
        self.compact()?;
        let gathered = gather(source, &mut self.buffer, &mut self.budget)?;
        match gathered {
            Some(at) => {
                self.start = 0;
                self.end = at;
                self.rest = at + 1;
                Ok(true)
            }
            None => {
                self.start = 0;
                self.end = self.buffer.len();
                self.rest = self.end;
                self.ended = true;
                Ok(self.end > 0)
            }
        }
    }

    /// Forgets the bytes before those that are held.
    fn compact(&mut self) -> Result<(), Stop>
        ensures held { OnOk result (self.new.buffer.items ≡ held_of self.old) }
        ensures places { OnOk result ((self.new.start ≡ 0) × (self.new.end ≡ 0) ×
            (self.new.rest ≡ 0)) }
        ensures same { (self.new.budget ≡ self.old.budget) × (self.new.ended ≡ self.old.ended) }
        ensures err { IsOkUnless result Stop.NoMemory }
        ensures kept { OnErr result (held_of self.new ≡ held_of self.old) }
    {
        self.spare.clear();
        self.spare.extend_from_slice(&self.buffer[self.rest..])?;
        self.start = 0;
        self.end = 0;
        self.rest = 0;
        mem::swap(&mut self.buffer, &mut self.spare);
        Ok(())
    }
}
