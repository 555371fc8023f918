//! Cases of bytes, and of lines: what reading each gives.
use crate::calls::Calls;
use crate::judge::Judge;
use crate::show_block::put_block;
use crate::show_entry::put_entry;
use crate::show_line::put_said;
use crate::show_side::put_opened;
use crate::text::Text;
use hs_block::{Addresser, ShaNames, TailNames};
use hs_casebook::{CaseFault, CaseLine, Naming, Reader, found, split_word};
use hs_limits::Address;

/// What is read.
#[derive(Clone, Copy)]
enum Word {
    Block,
    Entry,
    Side,
    Line,
    Address,
}

/// The words for what is read.
const WORDS: [(&str, Word); 5] = [
    ("block", Word::Block),
    ("entry", Word::Entry),
    ("side", Word::Side),
    ("line", Word::Line),
    ("address", Word::Address),
];

/// Judges lines that stand in pairs: what is read, and `gives` with what has to come of it.
pub fn judge_pairs(judge: &mut Judge, lines: &[CaseLine<'_>]) {
    judge_answers(judge, &mut None, lines);
}

/// Judges lines that stand in pairs: a call where there is a disk, or else what is read, and `gives`
/// with what has to come of it.
pub(crate) fn judge_answers(judge: &mut Judge, calls: &mut Option<Calls>, lines: &[CaseLine<'_>]) {
    for pair in lines.chunks(2) {
        match pair {
            [asked, wanted] if wanted.is("gives") => judge_pair(judge, calls, asked, wanted),
            [first, ..] => judge.refuse(first.at, CaseFault::UnknownWord),
            [] => {}
        }
    }
}

/// Judges one pair.
fn judge_pair(
    judge: &mut Judge,
    calls: &mut Option<Calls>,
    asked: &CaseLine<'_>,
    wanted: &CaseLine<'_>,
) {
    let mut came = Text::new(judge.reader.alloc);
    judge.reader.at = asked.at;
    match calls {
        Some(calls) => calls.put_answer(&mut judge.reader, asked, &mut came),
        None => put_reading(&mut judge.reader, asked, &mut came),
    }
    if judge.has_fault() {
        return;
    }
    judge.reader.at = wanted.at;
    let text = judge.reader.text_of(wanted.rest);
    if !judge.has_fault() {
        judge.compare_text(wanted.at, "line", &text, &came);
    }
}

/// Puts what reading gives: no line knows of another.
fn put_reading(reader: &mut Reader, asked: &CaseLine<'_>, out: &mut Text) {
    reader.spend(1000);
    let word = found(&WORDS, asked.word);
    let bytes = bytes_read(reader, word, asked.rest);
    if word.is_none() {
        reader.fail(CaseFault::UnknownWord);
    }
    if let Some(word) = word {
        put_read(reader, word, asked.rest, &bytes, out);
    }
}

/// The bytes that are read: a line as its text, others as their words say.
fn bytes_read(reader: &mut Reader, word: Option<Word>, written: &[u8]) -> Vec<u8> {
    match word {
        Some(Word::Line) => reader.text_of(written),
        Some(Word::Address) => reader.bytes_of(split_word(written).1),
        _ => reader.bytes_of(written),
    }
}

/// Puts what reading bytes gives.
fn put_read(reader: &mut Reader, word: Word, written: &[u8], bytes: &[u8], out: &mut Text) {
    match word {
        Word::Block => put_block(reader.alloc, bytes, out),
        Word::Entry => put_entry(reader.alloc, bytes, out),
        Word::Side => put_opened(reader.alloc, bytes, out),
        Word::Line => put_said(reader.alloc, bytes, out),
        Word::Address => put_address(reader, written, bytes, out),
    }
}

/// Puts the address of bytes in the naming that the line says.
fn put_address(reader: &mut Reader, written: &[u8], bytes: &[u8], out: &mut Text) {
    let naming = reader.naming(split_word(written).0);
    out.put_hex("", &address_in(naming, bytes).0);
}

/// The address of bytes in a naming.
pub(crate) fn address_in(naming: Naming, bytes: &[u8]) -> Address {
    match naming {
        Naming::Sha => ShaNames.address(bytes),
        Naming::Tail => TailNames.address(bytes),
    }
}
