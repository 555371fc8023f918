//! What is wrong with a line that is not in the script language.
ghost use Rattle.std.specs.Prelude.{◌≡◌, OnOk};
ghost use Rattle.std.specs.Io.KnownBytes.{Appends};
ghost use Rattle.hs_mistakes.specs.BadLine.{cause_text};

use hs_limits::{is_key, is_name};
use hs_script::{LONGEST_LINE, number_up_to};
use std::io;
use std::io::Write;

/// What is wrong with a line.
#[derive(Clone, Copy, PartialEq, Eq)]
pub enum BadCause {
    /// More bytes than the longest line has.
    Long,
    /// It ends with a carriage return.
    Return,
    /// A space at its start or its end, or two side by side.
    Space,
    Verb,
    /// A verb that a later step serves.
    LaterVerb,
    FewWords,
    ManyWords,
    Session,
    Key,
    Handle,
    Peer,
    Message,
    Digit,
    OddDigits,
}

/// What a word behind a verb has to be.
#[derive(Clone, Copy)]
enum Part {
    Session,
    Key,
    Handle,
    Data,
    Peer,
    Message,
}

/// The verbs behind which there are always as many words.
const VERBS: &[(&[u8], &[Part])] = &[
    (b"open", &[Part::Session]),
    (b"close", &[Part::Session]),
    (b"read", &[Part::Session, Part::Handle]),
    (b"forget", &[Part::Session, Part::Handle]),
    (b"name", &[Part::Session, Part::Handle]),
    (b"look", &[Part::Session, Part::Key]),
    (b"root", &[Part::Session, Part::Key, Part::Handle]),
    (b"drop", &[Part::Key]),
    (b"delete", &[]),
    (b"stat", &[]),
    (b"settle", &[]),
    (b"turn", &[Part::Peer]),
    (b"nudge", &[Part::Peer]),
    (b"fail", &[Part::Peer]),
    (b"start", &[Part::Peer]),
    (b"deliver", &[Part::Message]),
    (b"lose", &[Part::Message]),
    (b"repeat", &[Part::Message]),
];

/// Writes the line of a cause, where there is one.
pub fn tell_cause<E: Write>(errors: &mut E, cause: Option<BadCause>) -> io::Result<()>
    ensures ok { OnOk result (Appends (E.contents errors.old) (E.contents errors.new)
        (cause_text cause)) }
{
    errors.write_all(cause_line(cause).as_bytes())
}

fn cause_line(cause: Option<BadCause>) -> &'static str
    ensures { result.now ≡ cause_text cause }
{
    match cause {
        None => "",
        Some(BadCause::Long) => "hydra: the line has more than 200000 bytes\n",
        Some(BadCause::Return) => "hydra: the line ends with a carriage return\n",
        Some(BadCause::Space) => "hydra: the line has a space too many\n",
        Some(BadCause::Verb) => "hydra: the line begins with no verb of a script\n",
        Some(BadCause::LaterVerb) => "hydra: the verb of the line is not served yet\n",
        Some(BadCause::FewWords) => "hydra: the line has a word too few\n",
        Some(BadCause::ManyWords) => "hydra: the line has a word too many\n",
        Some(BadCause::Session) => "hydra: the session is not 1 to 16 of a-z 0-9\n",
        Some(BadCause::Key) => "hydra: the key is not 1 to 64 of a-z 0-9 . _ -\n",
        Some(BadCause::Handle) => "hydra: the handle is not h and a number\n",
        Some(BadCause::Peer) => "hydra: the peer is not a number below 256\n",
        Some(BadCause::Message) => "hydra: the message is not a number below 2^64\n",
        Some(BadCause::Digit) => "hydra: the data have a byte that is no hexadecimal digit\n",
        Some(BadCause::OddDigits) => "hydra: the data have an odd number of digits\n",
    }
}

/// What is wrong with the first of some lines that is bad. The bytes before the first line feed are
/// passed over where they are the end of a line.
pub fn first_cause(bytes: &[u8], is_cut: bool) -> Option<BadCause> {
    let mut lines = bytes.split(|byte| *byte == b'\n');
    if is_cut {
        let _ = lines.next();
    }
    lines.find_map(|line| cause_of(line))
}

/// What is wrong with a line, and None where it is served.
pub fn cause_of(line: &[u8]) -> Option<BadCause> {
    if line.len() > LONGEST_LINE {
        return Some(BadCause::Long);
    }
    match line {
        [] | [b'#', ..] => None,
        [.., b'\r'] => Some(BadCause::Return),
        _ => cause_of_words(line),
    }
}

fn cause_of_words(line: &[u8]) -> Option<BadCause> {
    if line.split(|byte| *byte == b' ').any(|word| word.is_empty()) {
        return Some(BadCause::Space);
    }
    let (verb, rest) = split_word(line);
    match check_verb(verb, rest) {
        Ok(()) => None,
        Err(cause) => Some(cause),
    }
}

// The first word, and what stands behind the space after it.
fn split_word(line: &[u8]) -> (&[u8], Option<&[u8]>) {
    match line.iter().position(|byte| *byte == b' ') {
        Some(at) => (&line[..at], Some(&line[at + 1..])),
        None => (line, None),
    }
}

// The words behind a verb.
fn check_verb(verb: &[u8], rest: Option<&[u8]>) -> Result<(), BadCause> {
    if verb == b"write".as_slice() {
        return check_write(rest);
    }
    match parts_of(verb) {
        Some(parts) => check_parts(parts, rest),
        None if verb == b"reclaim".as_slice() => Err(BadCause::LaterVerb),
        None => Err(BadCause::Verb),
    }
}

// What the words behind a verb have to be, where it has always as many.
fn parts_of(verb: &[u8]) -> Option<&'static [Part]> {
    for (name, parts) in VERBS {
        if *name == verb {
            return Some(*parts);
        }
    }
    None
}

fn check_parts(parts: &[Part], rest: Option<&[u8]>) -> Result<(), BadCause> {
    let mut rest = rest;
    for part in parts {
        rest = behind(*part, rest)?;
    }
    check_end(rest)
}

fn check_end(rest: Option<&[u8]>) -> Result<(), BadCause> {
    match rest {
        Some(_) => Err(BadCause::ManyWords),
        None => Ok(()),
    }
}

// The words of a write: each behind the data is a handle.
fn check_write(rest: Option<&[u8]>) -> Result<(), BadCause> {
    let rest = behind(Part::Session, rest)?;
    match behind(Part::Data, rest)? {
        Some(handles) => check_handles(handles),
        None => Ok(()),
    }
}

fn check_handles(words: &[u8]) -> Result<(), BadCause> {
    for word in words.split(|byte| *byte == b' ') {
        check_word(Part::Handle, word)?;
    }
    Ok(())
}

// What stands behind a word, which has to be there.
fn behind(part: Part, rest: Option<&[u8]>) -> Result<Option<&[u8]>, BadCause> {
    let Some(words) = rest else {
        return Err(BadCause::FewWords);
    };
    let (word, more) = split_word(words);
    match check_word(part, word) {
        Ok(()) => Ok(more),
        Err(cause) => Err(cause),
    }
}

fn check_word(part: Part, word: &[u8]) -> Result<(), BadCause> {
    match part {
        Part::Session => wanted(is_name(word), BadCause::Session),
        Part::Key => wanted(is_key(word), BadCause::Key),
        Part::Handle => wanted(is_handle(word), BadCause::Handle),
        Part::Data => check_data(word),
        Part::Peer => wanted(is_number(word, u64::from(u8::MAX)), BadCause::Peer),
        Part::Message => wanted(is_number(word, u64::MAX), BadCause::Message),
    }
}

fn wanted(holds: bool, cause: BadCause) -> Result<(), BadCause> {
    if holds { Ok(()) } else { Err(cause) }
}

fn check_data(word: &[u8]) -> Result<(), BadCause> {
    if word == b"-".as_slice() {
        return Ok(());
    }
    wanted(
        word.iter().all(|byte| byte.is_ascii_hexdigit()),
        BadCause::Digit,
    )?;
    wanted(word.len() % 2 == 0, BadCause::OddDigits)
}

// Whether a word is h and a number below 2^32.
fn is_handle(word: &[u8]) -> bool {
    match word {
        [b'h', digits @ ..] => is_number(digits, u64::from(u32::MAX)),
        _ => false,
    }
}

// Whether a word is a number up to `most`, without a leading zero.
fn is_number(word: &[u8], most: u64) -> bool {
    number_up_to(most, word).is_some()
}
