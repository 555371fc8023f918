//! Cases of one copy of each shard, tried with several: where they name no peer their text is the same.
use hs_casebook::{Pass, Reader, is, split_word};

/// The words of the lines that name a peer or a message.
const NAMING: [&str; 8] = [
    "turn", "nudge", "deliver", "lose", "repeat", "fail", "start", "reclaim",
];

/// Has each run of a case keep so many copies of each shard, and nothing be compared of its disks. It
/// answers false where a case is not of one copy, is given or names a peer, tells a moment, or has a pool
/// of its own, in which messages of copies take room.
pub fn with_copies(reader: &mut Reader, passes: &mut [Pass], copies: u8) -> bool {
    for pass in passes.iter_mut() {
        if is_of_a_peer(pass) || names_a_peer(reader, &pass.script) || has_pool(reader, pass) {
            return false;
        }
        if !set_copies(&mut pass.words, copies) {
            return false;
        }
        pass.wanted.sides.clear();
        pass.wanted.has_course = false;
    }
    true
}

/// Whether a run is given disks, or calls of them that fail, or tells a moment or the shape of a disk.
fn is_of_a_peer(pass: &Pass) -> bool {
    let given = &pass.given;
    given.disks.is_some()
        || given.each.is_some()
        || given.moments.is_some()
        || given.skip != 0
        || given.zero.len() != 0
        || given.one.len() != 0
        || given.disk_fails.len() != 0
        || pass.wanted.texts.get(b"moment".as_slice()).is_some()
        || pass.wanted.statuses.as_slice().starts_with(b"wrongshape")
}

/// Whether a line of a script names a peer or a message.
fn names_a_peer(reader: &mut Reader, script: &[u8]) -> bool {
    for line in &reader.split(script, b'\n') {
        let (word, _) = split_word(line);
        for naming in NAMING {
            if is(word, naming) {
                return true;
            }
        }
    }
    false
}

/// Whether the words of a run limit its pool.
fn has_pool(reader: &mut Reader, pass: &Pass) -> bool {
    for word in &reader.split(&pass.words, b' ') {
        if is(word, "--pool") {
            return true;
        }
    }
    false
}

/// Has words ask for so many copies, where they ask for one. It answers whether they do.
fn set_copies(words: &mut Vec<u8>, copies: u8) -> bool {
    let (_, rest) = split_word(words);
    let (_, rest) = split_word(rest);
    let (_, rest) = split_word(rest);
    let (written, _) = split_word(rest);
    if written != b"1".as_slice() {
        return false;
    }
    let place = words.len().saturating_sub(rest.len());
    match words.get_mut(place) {
        Some(byte) => {
            *byte = b'0'.saturating_add(copies);
            true
        }
        None => false,
    }
}
