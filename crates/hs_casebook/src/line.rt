//! The lines of a file of cases, and the words of a line.
use crate::Reader;

/// A line of a file that says something: its number, from 1, its first word, and what stands behind
/// the space that ends it.
#[derive(Clone, Copy)]
pub struct CaseLine<'a> {
    pub at: u64,
    pub word: &'a [u8],
    pub rest: &'a [u8],
}

impl CaseLine<'_> {
    /// Whether the line begins with this word.
    pub fn is(&self, text: &str) -> bool {
        is(self.word, text)
    }
}

/// The lines that say something, in order: all but empty ones and comments, which begin with `#`.
pub fn lines_of<'a>(reader: &mut Reader, text: &'a [u8]) -> Vec<CaseLine<'a>> {
    let mut lines = Vec::new(reader.alloc);
    let mut at = 0u64;
    for line in &reader.split(text, b'\n') {
        at = at.saturating_add(1);
        let (word, rest) = split_word(line);
        if !matches!(line, [] | [b'#', ..]) {
            reader.stored(lines.push(CaseLine { at, word, rest }));
        }
    }
    lines
}

/// Whether a word is this one.
pub fn is(word: &[u8], text: &str) -> bool {
    word == text.as_bytes()
}

/// What a table has beside a word.
pub fn found<T: Copy>(table: &[(&str, T)], word: &[u8]) -> Option<T> {
    for (text, value) in table {
        if is(word, text) {
            return Some(*value);
        }
    }
    None
}

/// What stands before the first of these bytes, and behind it, where there is one.
pub fn split_once(text: &[u8], byte: u8) -> Option<(&[u8], &[u8])> {
    for end in 0..text.len() {
        if text[end] == byte {
            return Some((&text[..end], &text[end + 1..]));
        }
    }
    None
}

/// The first word of a line, and what stands behind the space that ends it.
pub fn split_word(line: &[u8]) -> (&[u8], &[u8]) {
    split_once(line, b' ').unwrap_or((line, &[]))
}

impl Reader {
    /// The pieces of a text between such bytes.
    pub fn split<'a>(&mut self, text: &'a [u8], byte: u8) -> Vec<&'a [u8]> {
        let mut pieces = Vec::new(self.alloc);
        let mut rest = text;
        for _ in 0..text.len() {
            let Some((piece, behind)) = split_once(rest, byte) else {
                break;
            };
            self.stored(pieces.push(piece));
            rest = behind;
        }
        self.stored(pieces.push(rest));
        pieces
    }
}
