//! Numbers in decimal digits.
use crate::line::{split_once, split_word};
use crate::{CaseFault, Reader};
use std::str::from_utf8;

/// How many numbers a line may list.
const MOST_LISTED: u64 = 4096;

/// The number that a word writes.
pub fn number_of(word: &[u8]) -> Option<u64> {
    match word {
        [b'0'..=b'9', ..] => from_utf8(word).ok()?.parse::<u64>().ok(),
        _ => None,
    }
}

/// The number below 256 that a word writes.
pub fn small_of(word: &[u8]) -> Option<u8> {
    u8::try_from(number_of(word)?).ok()
}

/// The first and the last number of a word `A..B`, or one number twice.
pub fn range_of(word: &[u8]) -> Option<(u64, u64)> {
    match split_once(word, b'.') {
        None => range_from(word, word),
        Some((first, [b'.', last @ ..])) => range_from(first, last),
        Some(_) => None,
    }
}

/// Two numbers that rise.
fn range_from(first: &[u8], last: &[u8]) -> Option<(u64, u64)> {
    let first = number_of(first)?;
    let last = number_of(last)?;
    if last < first {
        return None;
    }
    Some((first, last))
}

impl Reader {
    /// The number that a word writes.
    pub fn number(&mut self, word: &[u8]) -> u64 {
        self.or(number_of(word), 0, CaseFault::NoNumber)
    }

    /// The number below 256 that a word writes.
    pub fn small(&mut self, word: &[u8]) -> u8 {
        self.or(small_of(word), 0, CaseFault::NoNumber)
    }

    /// The first and the last number of a word `A..B`, or one number twice.
    pub fn range(&mut self, word: &[u8]) -> (u64, u64) {
        self.or(range_of(word), (0, 0), CaseFault::NoNumber)
    }

    /// The numbers that words list, some as `A..B`.
    pub(crate) fn numbers(&mut self, text: &[u8]) -> Vec<u64> {
        let mut numbers = Vec::new(self.alloc);
        let mut rest = text;
        for _ in 0..text.len() {
            if rest.is_empty() {
                break;
            }
            let (word, behind) = split_word(rest);
            self.add_range(&mut numbers, word);
            rest = behind;
        }
        numbers
    }

    /// Adds the numbers of a range.
    fn add_range(&mut self, numbers: &mut Vec<u64>, word: &[u8]) {
        let (first, last) = self.range(word);
        if last.saturating_sub(first) >= MOST_LISTED || numbers.len() as u64 >= MOST_LISTED {
            self.fail(CaseFault::TooMuch);
            return;
        }
        for number in first..=last {
            self.stored(numbers.push(number));
        }
    }
}
