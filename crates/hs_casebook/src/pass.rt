//! The runs of a case, one behind the other.
use crate::given::{Given, Naming};
use crate::line::{found, is};
use crate::wanted::Wanted;
use crate::{CaseFault, CaseLine, Reader};

/// What a run is begun on.
#[derive(Clone, Copy)]
pub enum Begins {
    /// The disks that it is given.
    Given,
    /// The disks as the run before left them.
    Again,
    /// Each image that a stop of the run before may leave.
    Stops,
}

/// The words that begin a further run.
const BEGINNINGS: [(&str, Begins); 2] = [("again", Begins::Again), ("stops", Begins::Stops)];

/// A run: the number of its first line, what it is begun on and given, its words and script, and
/// what has to come.
#[derive(Drop)]
pub struct Pass {
    pub at: u64,
    pub begins: Begins,
    pub words: Vec<u8>,
    pub naming: Naming,
    pub given: Given,
    pub script: Vec<u8>,
    pub wanted: Wanted,
}

impl Pass {
    /// The run that begins at the line that is read, with an empty script.
    fn new(reader: &mut Reader, begins: Begins, words: &[u8], naming: Naming) -> Pass {
        Pass {
            at: reader.at,
            begins,
            words: reader.copy(words),
            naming,
            given: Given::new(reader.alloc),
            script: Vec::new(reader.alloc),
            wanted: Wanted::new(reader.alloc),
        }
    }

    /// The run behind this one. It has its naming, and its words where it is given none.
    fn next(&self, reader: &mut Reader, begins: Begins, words: &[u8]) -> Pass {
        let words = if words.is_empty() { &self.words } else { words };
        Pass::new(reader, begins, words, self.naming)
    }

    /// Whether the run is begun on what stops leave.
    pub fn is_behind_stops(&self) -> bool {
        matches!(self.begins, Begins::Stops)
    }

    /// Takes a line of the run.
    fn take(&mut self, reader: &mut Reader, line: &CaseLine<'_>) {
        reader.spend(line.rest.len() as u64);
        let is_known = self.take_text(reader, line)
            || self.given.take(reader, line)
            || self.wanted.take(reader, line);
        if !is_known {
            reader.fail(CaseFault::UnknownWord);
        }
    }

    /// Takes a line of the script or its text, or on the naming. It answers false where the line is
    /// on something else.
    fn take_text(&mut self, reader: &mut Reader, line: &CaseLine<'_>) -> bool {
        match line.word {
            [b'<', mark @ ..] => reader.add_lines(&mut self.script, mark, line.rest),
            [b'>', mark @ ..] => reader.add_lines(&mut self.wanted.text, mark, line.rest),
            word if is(word, "names") => self.naming = reader.naming(line.rest),
            _ => return false,
        }
        true
    }

    /// Why the run can't stand where it does, behind so many others, of which some are behind stops:
    /// calls are tried in turn in the first run alone, moments behind stops, and stops once.
    fn misplaced(&self, is_first: bool, has_stops: bool) -> bool {
        let stops = self.is_behind_stops();
        (self.given.each.is_some() && !is_first)
            || (self.given.moments.is_some() && !stops)
            || (stops && has_stops)
    }
}

/// The script of a case whose first line is `plain WORDS`, with the lines behind it.
pub fn plain_of(reader: &mut Reader, first: &CaseLine<'_>, lines: &[CaseLine<'_>]) -> Pass {
    reader.at = first.at;
    let mut pass = Pass::new(reader, Begins::Given, first.rest, Naming::Sha);
    for line in lines {
        reader.at = line.at;
        if !pass.take_text(reader, line) {
            reader.fail(CaseFault::UnknownWord);
        }
    }
    pass
}

/// The runs of a case whose first line is `run WORDS`, with the lines behind it.
pub fn passes_of(reader: &mut Reader, first: &CaseLine<'_>, lines: &[CaseLine<'_>]) -> Vec<Pass> {
    let mut passes = Vec::new(reader.alloc);
    reader.at = first.at;
    let pass = Pass::new(reader, Begins::Given, first.rest, Naming::Sha);
    reader.stored(passes.push(pass));
    for line in lines {
        take_line(reader, &mut passes, line);
    }
    check_places(reader, &passes);
    passes
}

/// Takes a line behind the first: it begins a run, or is one of the last run.
fn take_line(reader: &mut Reader, passes: &mut Vec<Pass>, line: &CaseLine<'_>) {
    reader.at = line.at;
    let Some(last) = passes.last_mut() else {
        return;
    };
    match found(&BEGINNINGS, line.word) {
        None => last.take(reader, line),
        Some(begins) => {
            let next = last.next(reader, begins, line.rest);
            reader.stored(passes.push(next));
        }
    }
}

/// Refuses a run that can't stand where it does.
fn check_places(reader: &mut Reader, passes: &[Pass]) {
    let mut is_first = true;
    let mut has_stops = false;
    for pass in passes {
        reader.at = pass.at;
        if pass.misplaced(is_first, has_stops) {
            reader.fail(CaseFault::UnknownWord);
        }
        is_first = false;
        has_stops = has_stops || pass.is_behind_stops();
    }
}
