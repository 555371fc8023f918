//! Which word of a command line is wrong, and why.
ghost use Rattle.std.specs.Prelude.{◌≤◌, IfSome};

use hs_limits::{Limits, is_key};
use hs_script::number_up_to;
use std::alloc::Global;
use std::io;
use std::io::Write;

/// What is wrong with a word, or which one is missing.
#[derive(Clone, Copy, PartialEq, Eq)]
pub enum WordFault {
    NoCommand,
    Command,
    NoFolder,
    EmptyFolder,
    NoShards,
    Shards,
    NoCopies,
    Copies,
    NoKey,
    Key,
    /// One of the words of the second store of a copy.
    NoSecond,
    SecondFolder,
    SecondShards,
    SecondCopies,
    /// An option that the command does not take.
    Unknown,
    Twice,
    NoValue,
    /// The value of an option is not a number from the least to the most.
    Value { least: u64, most: u64 },
    NoSeed,
    NoWriters,
}

/// The options of a load that have to be given.
const SEED: &[u8] = b"--seed";

const WRITERS: &[u8] = b"--writers";

/// Writes which word is wrong, and why.
pub fn tell_word<E: Write>(
    alloc: Global,
    errors: &mut E,
    fault: WordFault,
    word: &str,
) -> io::Result<()> {
    let mut line = Vec::new(alloc);
    put_fault(&mut line, fault, word)?;
    errors.write_all(&line)
}

// Puts the line at the end of `line`.
fn put_fault(line: &mut Vec<u8>, fault: WordFault, word: &str) -> io::Result<()> {
    match fault {
        WordFault::NoCommand => write!(line, "hydra: the command is missing\n"),
        WordFault::Command => write!(
            line,
            "hydra: the command is none of script, load, store, fetch, audit, scrub and copy: {word}\n"
        ),
        WordFault::NoFolder => write!(line, "hydra: DIR is missing\n"),
        WordFault::EmptyFolder => write!(line, "hydra: DIR is empty\n"),
        WordFault::NoShards => write!(line, "hydra: G is missing\n"),
        WordFault::Shards => write!(line, "hydra: G is not 1, 2, 4 or 8: {word}\n"),
        WordFault::NoCopies => write!(line, "hydra: R is missing\n"),
        WordFault::Copies => write!(line, "hydra: R is not 1, 2, 3 or 4: {word}\n"),
        _ => put_later_fault(line, fault, word),
    }
}

// The same of a word behind R.
fn put_later_fault(line: &mut Vec<u8>, fault: WordFault, word: &str) -> io::Result<()> {
    match fault {
        WordFault::NoKey => write!(line, "hydra: KEY is missing\n"),
        WordFault::Key => write!(line, "hydra: KEY is not 1 to 64 of a-z 0-9 . _ -: {word}\n"),
        WordFault::NoSecond => write!(line, "hydra: DIR2, G2 or R2 is missing\n"),
        WordFault::SecondFolder => write!(line, "hydra: DIR2 is empty\n"),
        WordFault::SecondShards => write!(line, "hydra: G2 is not 1, 2, 4 or 8: {word}\n"),
        WordFault::SecondCopies => write!(line, "hydra: R2 is not 1, 2, 3 or 4: {word}\n"),
        WordFault::Twice => write!(line, "hydra: the option is given twice: {word}\n"),
        WordFault::NoValue => write!(line, "hydra: the option has no value: {word}\n"),
        WordFault::Value { least, most } => write!(
            line,
            "hydra: the option takes a number from {least} to {most}: {word}\n"
        ),
        WordFault::NoSeed => write!(line, "hydra: the option is missing: --seed\n"),
        WordFault::NoWriters => write!(line, "hydra: the option is missing: --writers\n"),
        _ => write!(line, "hydra: the command takes no such option: {word}\n"),
    }
}

/// The first word that is wrong, by its place, with what is wrong; None where none is. Of words that
/// a later step serves it says nothing.
pub fn wrong_word(words: &[String]) -> Option<(WordFault, &str)> {
    match words {
        [] => Some((WordFault::NoCommand, "")),
        [command, rest @ ..] => {
            if is_command(command.as_bytes()) {
                wrong_folder(command.as_bytes(), rest)
            } else {
                Some((WordFault::Command, command.as_str()))
            }
        }
    }
}

fn is_command(word: &[u8]) -> bool {
    word == b"script".as_slice()
        || word == b"load".as_slice()
        || word == b"audit".as_slice()
        || word == b"store".as_slice()
        || word == b"fetch".as_slice()
        || word == b"scrub".as_slice()
        || word == b"copy".as_slice()
}

// The words from DIR on.
fn wrong_folder<'a>(command: &[u8], words: &'a [String]) -> Option<(WordFault, &'a str)> {
    match words {
        [] => Some((WordFault::NoFolder, "")),
        [dir, rest @ ..] => {
            if dir.as_bytes().is_empty() {
                Some((WordFault::EmptyFolder, ""))
            } else {
                wrong_shape(command, rest)
            }
        }
    }
}

// The words from G on.
fn wrong_shape<'a>(command: &[u8], words: &'a [String]) -> Option<(WordFault, &'a str)> {
    let [shards, rest @ ..] = words else {
        return Some((WordFault::NoShards, ""));
    };
    let Some(count) = shards_of(shards) else {
        return Some((WordFault::Shards, shards.as_str()));
    };
    let [copies, rest @ ..] = rest else {
        return Some((WordFault::NoCopies, ""));
    };
    match copies_of(copies) {
        None => Some((WordFault::Copies, copies.as_str())),
        Some(number) => wrong_besides(command, count * number, rest),
    }
}

// How many shards a word says.
fn shards_of(word: &str) -> Option<u64>
    ensures { IfSome result (λ n. n ≤ 8) }
{
    let count = number_up_to(8, word.as_bytes())?;
    if count == 1 || count == 2 || count == 4 || count == 8 {
        Some(count)
    } else {
        None
    }
}

// How many copies a word says.
fn copies_of(word: &str) -> Option<u64>
    ensures { IfSome result (λ n. n ≤ 4) }
{
    let count = number_up_to(4, word.as_bytes())?;
    if count == 0 { None } else { Some(count) }
}

// The words behind R, of a store of so many peers.
fn wrong_besides<'a>(
    command: &[u8],
    peers: u64,
    words: &'a [String],
) -> Option<(WordFault, &'a str)> {
    let is_copy = command == b"copy".as_slice();
    if !is_copy && command != b"store".as_slice() && command != b"fetch".as_slice() {
        return wrong_options(command, peers, words);
    }
    match words {
        [] => Some((WordFault::NoKey, "")),
        [key, rest @ ..] => {
            if !is_key(key.as_bytes()) {
                Some((WordFault::Key, key.as_str()))
            } else if is_copy {
                wrong_second(command, peers, rest)
            } else {
                wrong_options(command, peers, rest)
            }
        }
    }
}

// The words of the second store of a copy.
fn wrong_second<'a>(
    command: &[u8],
    peers: u64,
    words: &'a [String],
) -> Option<(WordFault, &'a str)> {
    let [dir, shards, copies, rest @ ..] = words else {
        return Some((WordFault::NoSecond, ""));
    };
    if dir.as_bytes().is_empty() {
        Some((WordFault::SecondFolder, ""))
    } else if shards_of(shards).is_none() {
        Some((WordFault::SecondShards, shards.as_str()))
    } else if copies_of(copies).is_none() {
        Some((WordFault::SecondCopies, copies.as_str()))
    } else {
        wrong_options(command, peers, rest)
    }
}

// The options, and those that a load has to have.
fn wrong_options<'a>(
    command: &[u8],
    peers: u64,
    words: &'a [String],
) -> Option<(WordFault, &'a str)> {
    for (place, pair) in words.chunks(2).enumerate() {
        let is_again = match pair {
            [name, ..] => words
                .chunks(2)
                .take(place)
                .any(|other| is_named(other, name)),
            [] => false,
        };
        if let Some(wrong) = wrong_option(command, peers, pair, is_again) {
            return Some(wrong);
        }
    }
    if command != b"load".as_slice() {
        return None;
    }
    missing_option(words)
}

// Whether an option has this name.
fn is_named(pair: &[String], wanted: &String) -> bool {
    match pair {
        [name, ..] => name.as_bytes() == wanted.as_bytes(),
        [] => false,
    }
}

// An option of a load that has to be given, and is not.
fn missing_option(words: &[String]) -> Option<(WordFault, &str)> {
    if !words.iter().step_by(2).any(|name| name.as_bytes() == SEED) {
        return Some((WordFault::NoSeed, ""));
    }
    if !words
        .iter()
        .step_by(2)
        .any(|name| name.as_bytes() == WRITERS)
    {
        return Some((WordFault::NoWriters, ""));
    }
    None
}

// An option, which is there twice or not.
fn wrong_option<'a>(
    command: &[u8],
    peers: u64,
    pair: &'a [String],
    is_again: bool,
) -> Option<(WordFault, &'a str)> {
    let [name, value @ ..] = pair else {
        return None;
    };
    let Some((least, most)) = bounds_of(command, name.as_bytes(), peers) else {
        return Some((WordFault::Unknown, name.as_str()));
    };
    if is_again {
        return Some((WordFault::Twice, name.as_str()));
    }
    let [value, ..] = value else {
        return Some((WordFault::NoValue, name.as_str()));
    };
    match number_up_to(most, value.as_bytes()) {
        Some(number) if number >= least => None,
        _ => Some((WordFault::Value { least, most }, name.as_str())),
    }
}

// The least and the greatest number that an option takes, where the command has it.
fn bounds_of(command: &[u8], name: &[u8], peers: u64) -> Option<(u64, u64)> {
    if command == b"script".as_slice() {
        script_bounds(name)
    } else if command == b"load".as_slice() {
        load_bounds(name)
    } else if command == b"scrub".as_slice() && name == b"--from".as_slice() {
        Some((0, peers.saturating_sub(1)))
    } else if command == b"copy".as_slice() && name == b"--delete".as_slice() {
        Some((1, 1000))
    } else {
        None
    }
}

fn script_bounds(name: &[u8]) -> Option<(u64, u64)> {
    let most = Limits::greatest();
    if name == b"--ops".as_slice() {
        Some((1, u64::from(most.ops)))
    } else if name == b"--blocks".as_slice() {
        Some((1, u64::from(most.blocks)))
    } else if name == b"--roots".as_slice() {
        Some((1, u64::from(most.roots)))
    } else if name == b"--sessions".as_slice() {
        Some((1, u64::from(most.sessions)))
    } else if name == b"--handles".as_slice() {
        Some((1, u64::from(most.handles)))
    } else if name == b"--pool".as_slice() {
        Some((16, u64::from(most.pool)))
    } else if name == b"--epochs".as_slice() {
        Some((1, most.epochs))
    } else {
        None
    }
}

fn load_bounds(name: &[u8]) -> Option<(u64, u64)> {
    if name == SEED {
        Some((0, u64::MAX))
    } else if name == WRITERS {
        Some((1, 8))
    } else if name == b"--files".as_slice() {
        Some((1, 100))
    } else {
        None
    }
}
