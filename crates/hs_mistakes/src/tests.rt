//! What no clause says: which cause a bad line has, and which word is wrong.
use crate::bad_line::{BadCause, cause_of, first_cause};
use crate::words::{WordFault, wrong_word};
use std::alloc::{AllocError, Global};

/// Lines, each with what is wrong with it.
const LINES: &[(&[u8], BadCause)] = &[
    (b"opne a", BadCause::Verb),
    (b"reclaim 0", BadCause::LaterVerb),
    (b"write a 61 0", BadCause::Handle),
    (b"root a K h0", BadCause::Key),
    (b"turn 256", BadCause::Peer),
    (b"lose 18446744073709551616", BadCause::Message),
    (b"lose 01", BadCause::Message),
    (b"settle\r", BadCause::Return),
    (b"open  a", BadCause::Space),
    (b"open A", BadCause::Session),
    (b"open", BadCause::FewWords),
    (b"stat a", BadCause::ManyWords),
    (b"settle a", BadCause::ManyWords),
    (b"read a h00", BadCause::Handle),
    (b"read a h4294967296", BadCause::Handle),
    (b"write a 6g", BadCause::Digit),
    (b"write a 616", BadCause::OddDigits),
];

#[test]
fn a_bad_line_has_a_cause(rt: HostRuntime) {
    for (line, cause) in LINES {
        assert!(rt; cause_of(line) == Some(*cause));
    }
}

/// A line for each verb, before one that is wrong.
const SCRIPT: &[u8] = b"\n# a\r\nopen a\nwrite a 6a\nwrite a - h0 h1\nread a h0\nstat\nsettle\n\
    root a k.1 h0\nlook a k.1\ndrop k.1\nname a h0\nforget a h0\nclose a\ndelete\n\
    turn 0\nnudge 255\nfail 1\nstart 1\ndeliver 18446744073709551615\nlose 1\nrepeat 1\n\
    opne a\nstat 1";

#[test]
fn the_first_bad_line_has_the_cause(rt: HostRuntime) {
    assert!(rt; first_cause(SCRIPT, false) == Some(BadCause::Verb));
    assert!(rt; first_cause(b"ead a h0\nstat 1", true) == Some(BadCause::ManyWords));
}

/// Words, each with what is wrong with them, and the word at which.
const WORDS: &[(&str, WordFault, &str)] = &[
    ("scrpt d 1 1", WordFault::Command, "scrpt"),
    ("script", WordFault::NoFolder, ""),
    ("script d", WordFault::NoShards, ""),
    ("script d 3 1", WordFault::Shards, "3"),
    ("script d 1", WordFault::NoCopies, ""),
    ("script d 1 0", WordFault::Copies, "0"),
    ("store d 1 1", WordFault::NoKey, ""),
    ("fetch d 1 1 K", WordFault::Key, "K"),
    ("audit d 1 1 --from 0", WordFault::Unknown, "--from"),
    (
        "script d 1 1 --ops 2 --roots 3 --ops 2",
        WordFault::Twice,
        "--ops",
    ),
    ("script d 1 1 --ops", WordFault::NoValue, "--ops"),
    (
        "scrub d 2 2 --from 4",
        WordFault::Value { least: 0, most: 3 },
        "--from",
    ),
    ("load d 1 1 --writers 1", WordFault::NoSeed, ""),
    ("load d 1 1 --seed 1", WordFault::NoWriters, ""),
];

// The words of a line.
fn words_in(alloc: Global, text: &str) -> Result<Vec<String>, AllocError> {
    let mut words = Vec::new(alloc);
    for word in text.split(' ') {
        words.push(format!(in alloc; "{word}")?)?;
    }
    Ok(words)
}

#[test]
fn a_wrong_word_is_named(rt: HostRuntime) -> Result<(), AllocError> {
    for (text, fault, word) in WORDS {
        let words = words_in(rt.alloc(), text)?;
        assert!(rt; wrong_word(&words) == Some((*fault, *word)));
    }
    Ok(())
}
