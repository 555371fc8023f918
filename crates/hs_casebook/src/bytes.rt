//! Bytes as words: hex digits, names of bytes, cuts and changes.
use crate::line::{is, split_word};
use crate::text::MOST_IN_LINE;
use crate::{CaseFault, Reader};

impl Reader {
    /// Gives bytes a name, as `NAME BYTES` says.
    pub fn take_name(&mut self, written: &[u8]) {
        let (name, rest) = split_word(written);
        let bytes = self.bytes_of(rest);
        if self.has_failed() {
            return;
        }
        let name = self.copy(name);
        let before = self.names.insert(name, bytes);
        self.stored_once(before);
    }

    /// The bytes that words say, in order: hex digits, `@NAME` for those of a name, `cut N` for the
    /// first N of those so far, `set AT HEX` for these in the place of those from AT on, `-` for none.
    pub fn bytes_of(&mut self, written: &[u8]) -> Vec<u8> {
        let text = self.text_of(written);
        let mut bytes = Vec::new(self.alloc);
        let mut rest = text.as_slice();
        for _ in 0..text.len() {
            if rest.is_empty() {
                break;
            }
            let (word, behind) = split_word(rest);
            rest = self.take_word(&mut bytes, word, behind);
        }
        bytes
    }

    /// Does what a word says, and gives what stands behind what it says.
    fn take_word<'a>(&mut self, bytes: &mut Vec<u8>, word: &[u8], behind: &'a [u8]) -> &'a [u8] {
        if is(word, "cut") {
            return self.cut(bytes, behind);
        }
        if is(word, "set") {
            return self.set(bytes, behind);
        }
        self.add_plain(bytes, word);
        behind
    }

    /// Keeps the first so many bytes, and gives what stands behind the number.
    fn cut<'a>(&mut self, bytes: &mut Vec<u8>, written: &'a [u8]) -> &'a [u8] {
        let (word, rest) = split_word(written);
        let most = self.number(word);
        if most < bytes.len() as u64 {
            bytes.truncate(most as usize);
        }
        rest
    }

    /// Writes bytes over those from a place on, which have to be there, and gives what stands behind.
    fn set<'a>(&mut self, bytes: &mut Vec<u8>, written: &'a [u8]) -> &'a [u8] {
        let (word, behind) = split_word(written);
        let (digits, rest) = split_word(behind);
        let mut at = self.number(word);
        for byte in &self.decoded(digits, CaseFault::NoBytes) {
            self.set_byte(bytes, at, *byte);
            at = at.saturating_add(1);
        }
        rest
    }

    /// Writes a byte over the one at a place, which has to be there.
    fn set_byte(&mut self, bytes: &mut Vec<u8>, at: u64, byte: u8) {
        match bytes.get_mut(at as usize) {
            Some(old) => *old = byte,
            None => self.fail(CaseFault::NoBytes),
        }
    }

    /// Adds the bytes of hex digits, of a name, or none.
    fn add_plain(&mut self, bytes: &mut Vec<u8>, word: &[u8]) {
        let new = match word {
            [b'-'] => return,
            [b'@', name @ ..] => self.named(name),
            digits => self.decoded(digits, CaseFault::NoBytes),
        };
        self.add(bytes, &new, 1, MOST_IN_LINE);
    }

    /// The bytes of a name.
    fn named(&mut self, name: &[u8]) -> Vec<u8> {
        let mut fault = CaseFault::NoName;
        let mut bytes = None;
        if let Some(known) = self.names.get(name) {
            fault = CaseFault::NoMemory;
            bytes = Vec::from_slice(self.alloc, known).ok();
        }
        self.or(bytes, Vec::new(self.alloc), fault)
    }
}
