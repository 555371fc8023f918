//! What judges cases.
use crate::difference::{Difference, difference_of};
use crate::text::Text;
use hs_casebook::{CaseFault, Malformed, Reader};
use std::alloc::Global;

/// Numbers that what is wanted may name: of the lines that stored a block, how many were answered
/// below the moment of a stop, and how many were begun; and the number of the call that fails.
#[derive(Clone, Copy)]
pub struct Known {
    pub answered: u64,
    pub begun: u64,
    pub call: u64,
}

/// What judges cases: what they are read with, and what differs in the case that is judged.
#[derive(Drop)]
pub struct Judge {
    pub reader: Reader,
    /// The name of the file that the case is in.
    pub file: Text,
    /// The differences of the case, one a line; none where the text is empty.
    pub differences: Text,
    /// What a difference comes of, beside the line of the case: a call that fails, or a stop.
    pub note: Text,
    pub known: Known,
}

impl Judge {
    /// A judge of no case yet, with so many units of work.
    pub fn new(alloc: Global, units: u64) -> Judge {
        Judge {
            reader: Reader::new(alloc, units),
            file: Text::new(alloc),
            differences: Text::new(alloc),
            note: Text::new(alloc),
            known: NOTHING,
        }
    }

    /// Begins with a file.
    pub fn begin_file(&mut self, name: &str) {
        self.reader.forget_names();
        self.file.clear();
        self.file.put(name);
    }

    /// Begins with a case.
    pub fn begin_case(&mut self) {
        self.differences.clear();
        self.note.clear();
        self.known = NOTHING;
    }

    /// Whether something differs.
    pub fn has_differences(&self) -> bool {
        !self.differences.as_slice().is_empty()
    }

    /// Tells the fault of what was read, where there is one, and answers whether there is.
    pub fn has_fault(&mut self) -> bool {
        match self.reader.take_fault() {
            None => false,
            Some(Malformed { at, fault }) => {
                self.put_place(at);
                self.differences.put(fault.text());
                self.differences.put("\n");
                true
            }
        }
    }

    /// Tells a fault of a line.
    pub fn refuse(&mut self, at: u64, fault: CaseFault) {
        self.reader.at = at;
        self.reader.fail(fault);
        self.has_fault();
    }

    /// Tells that a part is not as wanted, where it is not: the first line of it that differs.
    pub fn compare(&mut self, at: u64, part: &str, wanted: &[u8], came: &[u8]) {
        let wanted = self.reader.split(wanted, b'\n');
        let came = self.reader.split(came, b'\n');
        if let Some(difference) = difference_of(&wanted, &came, self.known) {
            self.tell(at, part, &difference);
        }
    }

    /// Tells that a part that was put together is not as wanted, where it is not.
    pub fn compare_text(&mut self, at: u64, part: &str, wanted: &[u8], came: &Text) {
        if came.is_cut() {
            self.differences.cut();
        }
        self.compare(at, part, wanted, came.as_slice());
    }

    /// Tells a line of a part that is not as wanted.
    fn tell(&mut self, at: u64, part: &str, difference: &Difference<'_>) {
        self.put_place(at);
        self.differences.put(part);
        difference.put(&mut self.differences);
        self.differences.put_bytes(self.note.as_slice());
        self.differences.put("\n");
    }

    /// Puts the file and the number of a line, in front of what is told of it.
    fn put_place(&mut self, at: u64) {
        self.differences.put_named("  ", self.file.as_slice());
        self.differences.put_form(" #: ", &[at]);
    }
}

/// The numbers of a case without stops and calls that fail.
const NOTHING: Known = Known {
    answered: 0,
    begun: 0,
    call: 0,
};
