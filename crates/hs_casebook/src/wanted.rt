//! What has to come of a run.
use crate::line::{found, is, split_word};
use crate::{CaseLine, Reader};
use hs_ports::Side;
use std::alloc::Global;
use std::collections::BTreeMap;

/// What a side has to have behind a run.
#[derive(Drop)]
pub enum Left {
    /// These bytes and no others.
    Whole(Vec<u8>),
    /// These bytes, and any behind them.
    Front(Vec<u8>),
    /// So many bytes.
    Length(u64),
    /// A log of entries of these kinds, in order.
    Log(Vec<u8>),
}

/// A side of a peer, what it has to have, and the number of the line that says so.
#[derive(Drop)]
pub struct WantedSide {
    pub at: u64,
    pub peer: u8,
    pub side: Side,
    pub left: Left,
}

/// What has to come, as text; of what the case says nothing of, nothing has to.
#[derive(Drop)]
pub struct Wanted {
    pub text: Vec<u8>,
    /// Statuses, one a line, of which one has to come; empty stands for `done`.
    pub statuses: Vec<u8>,
    /// Whether the case tells the course.
    pub has_course: bool,
    /// The items of the course, one a line.
    pub course: Vec<u8>,
    /// What is wanted behind the words `line`, `journal`, `refused`, `moment`, `exit` and `error`. No
    /// `line` stands for the number of the script's lines.
    pub texts: BTreeMap<Vec<u8>, Vec<u8>>,
    pub sides: Vec<WantedSide>,
}

/// What a line on what has to come is on.
#[derive(Clone, Copy)]
enum Word {
    Status,
    Course,
    Text,
    Holds,
    Begins,
    Length,
    Log,
}

/// The words of these lines.
const WORDS: [(&str, Word); 12] = [
    ("status", Word::Status),
    ("course", Word::Course),
    ("line", Word::Text),
    ("journal", Word::Text),
    ("refused", Word::Text),
    ("moment", Word::Text),
    ("exit", Word::Text),
    ("error", Word::Text),
    ("holds", Word::Holds),
    ("begins", Word::Begins),
    ("length", Word::Length),
    ("log", Word::Log),
];

impl Wanted {
    /// No text, the status `done`, and all lines.
    pub fn new(alloc: Global) -> Wanted {
        Wanted {
            text: Vec::new(alloc),
            statuses: Vec::new(alloc),
            has_course: false,
            course: Vec::new(alloc),
            texts: BTreeMap::new(alloc),
            sides: Vec::new(alloc),
        }
    }

    /// Takes a line on what has to come beside the text. It answers false where the line is on
    /// something else.
    pub(crate) fn take(&mut self, reader: &mut Reader, line: &CaseLine<'_>) -> bool {
        let Some(word) = found(&WORDS, line.word) else {
            return false;
        };
        match word {
            Word::Status => reader.add_lines(&mut self.statuses, &[], line.rest),
            Word::Course => self.add_course(reader, line.rest),
            Word::Text => self.add_text(reader, line),
            _ => self.add_side(reader, word, line),
        }
        true
    }

    /// Takes a line on a number, or on the line on standard error.
    fn add_text(&mut self, reader: &mut Reader, line: &CaseLine<'_>) {
        let word = reader.copy(line.word);
        let text = reader.copy(line.rest);
        reader.stored(self.texts.insert(word, text));
    }

    /// Takes an item of the course, or `none` for a course without one.
    fn add_course(&mut self, reader: &mut Reader, written: &[u8]) {
        self.has_course = true;
        if !is(written, "none") {
            reader.add_lines(&mut self.course, &[], written);
        }
    }

    /// Takes what a side has to have, as `holds P SIDE BYTES` and its like say.
    fn add_side(&mut self, reader: &mut Reader, word: Word, line: &CaseLine<'_>) {
        let (peer, rest) = split_word(line.rest);
        let (side, rest) = split_word(rest);
        let side = reader.side(side);
        let left = left_of(reader, word, rest);
        let peer = reader.small(peer);
        let at = line.at;
        reader.stored(
            self.sides.push(WantedSide {
                at,
                peer,
                side,
                left,
            }),
        );
    }
}

/// What a side has to have.
fn left_of(reader: &mut Reader, word: Word, written: &[u8]) -> Left {
    match word {
        Word::Holds => Left::Whole(reader.bytes_of(written)),
        Word::Begins => Left::Front(reader.bytes_of(written)),
        Word::Length => Left::Length(reader.number(written)),
        _ => Left::Log(reader.copy(written)),
    }
}
