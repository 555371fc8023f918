//! Text with braces.
use crate::line::split_once;
use crate::{CaseFault, Reader};

/// How many bytes a line may stand for.
pub(crate) const MOST_IN_LINE: usize = 1_048_576;

impl Reader {
    /// The text that a line stands for: what is written, with `{TEXT*N}` as the text N times, and
    /// `{#HEX}` as these bytes.
    pub fn text_of(&mut self, written: &[u8]) -> Vec<u8> {
        let mut text = Vec::new(self.alloc);
        let mut rest = written;
        for _ in 0..written.len() {
            let Some((plain, behind)) = split_once(rest, b'{') else {
                break;
            };
            self.add(&mut text, plain, 1, MOST_IN_LINE);
            rest = self.add_braced(&mut text, behind);
        }
        self.add(&mut text, rest, 1, MOST_IN_LINE);
        text
    }

    /// Adds what the inside of a pair of braces stands for, and gives what is behind the pair.
    fn add_braced<'a>(&mut self, text: &mut Vec<u8>, behind: &'a [u8]) -> &'a [u8] {
        match split_once(behind, b'}') {
            None => {
                self.fail(CaseFault::BadBraces);
                &[]
            }
            Some((inner, behind)) => {
                self.add_inner(text, inner);
                behind
            }
        }
    }

    /// Adds what the inside of a pair of braces stands for.
    fn add_inner(&mut self, text: &mut Vec<u8>, inner: &[u8]) {
        if let [b'#', digits @ ..] = inner {
            let bytes = self.decoded(digits, CaseFault::BadBraces);
            self.add(text, &bytes, 1, MOST_IN_LINE);
        } else {
            self.add_repeated(text, inner);
        }
    }

    /// Adds a text so many times, as `TEXT*N` says.
    fn add_repeated(&mut self, text: &mut Vec<u8>, inner: &[u8]) {
        match split_once(inner, b'*') {
            Some((piece, times)) if split_once(inner, b'{').is_none() => {
                let times = self.number(times);
                self.add(text, piece, times, MOST_IN_LINE);
            }
            _ => self.fail(CaseFault::BadBraces),
        }
    }

    /// Adds a piece so many times to bytes of which there may be so many.
    pub(crate) fn add(&mut self, bytes: &mut Vec<u8>, piece: &[u8], times: u64, most: usize) {
        for _ in 0..times {
            if piece.len() > most.saturating_sub(bytes.len()) {
                self.fail(CaseFault::TooMuch);
                return;
            }
            if !self.spend((piece.len() as u64).saturating_add(1)) {
                return;
            }
            self.stored(bytes.extend_from_slice(piece));
        }
    }

    /// The bytes of hex digits.
    pub(crate) fn decoded(&mut self, digits: &[u8], fault: CaseFault) -> Vec<u8> {
        let bytes = hex::decode(self.alloc, digits).ok();
        self.or(bytes, Vec::new(self.alloc), fault)
    }
}
