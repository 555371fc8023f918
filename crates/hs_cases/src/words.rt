//! The words of the command line: files of cases.
use crate::tally::Tally;
use hs_casebook::found;
use std::io::{ErrorKind, Read, Write};
use std::rt::{Env, Files};
use std::{env, fs, io};

/// The words behind which cases of one copy of each shard are tried with several.
const COPIES: [(&str, u8); 2] = [("--two-copies", 2), ("--three-copies", 3)];

/// How many bytes of a file are read.
const MOST_BYTES: usize = 4_194_304;

/// Judges the cases of the files that the words name. Those of a file behind the words `--two-copies` or
/// `--three-copies` are tried with so many copies of each shard, where they are of one copy and name no
/// peer. Each case of a file behind the word `--wrong` is wrong on purpose, and has to differ. It answers
/// whether all is so.
pub fn judge_words<R: Env + Files + AllocGlobal, W: Write>(
    rt: &R,
    out: &mut W,
) -> io::Result<bool> {
    let mut tally = Tally::new(rt.alloc());
    for word in env::args(rt)?.skip(1) {
        judge_word(rt, &mut tally, word.as_str());
        write_told(&mut tally, out)?;
    }
    tell_counts(&mut tally);
    write_told(&mut tally, out)?;
    Ok(tally.right.differ == 0 && tally.wrong.differ == 0)
}

/// Judges the cases of the file that a word names.
fn judge_word<R: Files + AllocGlobal>(rt: &R, tally: &mut Tally, word: &str) {
    if word == "--wrong" {
        tally.is_wrong = true;
        tally.copies = None;
        tally.told.put("Each of these is wrong in one place, and has to differ:\n");
        return;
    }
    if let Some(copies) = found(&COPIES, word.as_bytes()) {
        tally.copies = Some(copies);
        tally
            .told
            .put_form("With # copies of each shard:\n", &[u64::from(copies)]);
        return;
    }
    match text_of(rt, word) {
        Ok(text) => tally.judge_file(word, &text),
        Err(error) => tell_error(tally, word, &error),
    }
}

/// Tells why a file can't be read.
fn tell_error(tally: &mut Tally, word: &str, error: &io::Error) {
    let mut line = Vec::new(tally.judge.reader.alloc);
    if write!(line, "{word}: {error}\n").is_err() {
        tally.told.cut();
    }
    tally.told.put_bytes(&line);
    tally.count(true);
}

/// Writes what is told.
fn write_told<W: Write>(tally: &mut Tally, out: &mut W) -> io::Result<()> {
    if tally.told.is_cut() {
        return Err(ErrorKind::OutOfMemory.into());
    }
    out.write_all(tally.told.as_slice())?;
    tally.told.clear();
    Ok(())
}

/// Tells how many cases there were, and how many differ.
fn tell_counts(tally: &mut Tally) {
    if tally.is_wrong {
        tally.told.put_form(
            "# wrong cases, # do not differ\n",
            &[tally.wrong.cases, tally.wrong.differ],
        );
    }
    tally.told.put_form(
        "# cases, # differ\n",
        &[tally.right.cases, tally.right.differ],
    );
}

/// The text of a file. One of more bytes than are read is refused.
fn text_of<R: Files + AllocGlobal>(rt: &R, name: &str) -> io::Result<Vec<u8>> {
    let mut file = fs::open(rt, name)?;
    let mut text = Vec::new(rt.alloc());
    let mut piece = [0u8; 4096];
    for _ in 0..u64::MAX {
        let read = file.read(&mut piece)?;
        if read == 0 {
            return Ok(text);
        }
        if text.len() > MOST_BYTES {
            break;
        }
        text.extend_from_slice(&piece[..read])?;
    }
    Err(ErrorKind::FileTooLarge.into())
}
