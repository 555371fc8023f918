//! The cases of files, one behind the other.
use crate::case::judge_case;
use hs_casebook::{CaseFault, CaseLine, lines_of};
use hs_compare::{Judge, Text};
use std::alloc::Global;

/// How many units of work all files together may take.
const UNITS: u64 = 500_000_000;

/// How many cases there were, and how many of them differ from what they should do: a case that is
/// wrong on purpose should differ, and every other one should not.
#[derive(Clone, Copy)]
pub struct Count {
    pub cases: u64,
    pub differ: u64,
}

/// No case.
const NONE: Count = Count {
    cases: 0,
    differ: 0,
};

/// The judge of all files, what is told of their cases, and how many there were: of those that are
/// right, and of those that are wrong on purpose.
#[derive(Drop)]
pub struct Tally {
    pub judge: Judge,
    /// What is told, and not written yet.
    pub told: Text,
    /// Whether the cases are wrong on purpose from here on.
    pub is_wrong: bool,
    /// With how many copies of each shard cases of one copy are tried from here on, where they are.
    pub copies: Option<u8>,
    pub right: Count,
    pub wrong: Count,
}

impl Tally {
    /// No file yet.
    pub fn new(alloc: Global) -> Tally {
        Tally {
            judge: Judge::new(alloc, UNITS),
            told: Text::new(alloc),
            is_wrong: false,
            copies: None,
            right: NONE,
            wrong: NONE,
        }
    }

    /// Judges the cases of a file, and tells a line for each, and what differs.
    pub fn judge_file(&mut self, file: &str, text: &[u8]) {
        self.judge.begin_file(file);
        let lines = lines_of(&mut self.judge.reader, text);
        if self.judge.has_fault() {
            self.told.cut();
        }
        self.judge_lines(&lines);
    }

    /// Judges the cases of lines, of which each begins with the word `case`.
    fn judge_lines(&mut self, lines: &[CaseLine<'_>]) {
        let mut first = 0;
        for end in 1..=lines.len() {
            let is_end = match lines.get(end) {
                Some(line) => line.is("case"),
                None => true,
            };
            if is_end {
                self.judge_part(lines.get(first..end));
                first = end;
            }
        }
    }

    /// Judges a case, or takes the names of bytes that stand before the first case.
    fn judge_part(&mut self, case: Option<&[CaseLine<'_>]>) {
        let Some(case) = case else {
            return;
        };
        let [head, body @ ..] = case else {
            return;
        };
        self.judge.begin_case();
        if head.is("case") {
            if judge_case(&mut self.judge, head, body, self.copies) {
                self.tell(head.rest);
            }
        } else {
            take_names(&mut self.judge, case);
            if self.judge.has_differences() {
                self.tell(b"the names of the file");
            }
        }
    }

    /// Tells the line of a case, and what differs.
    fn tell(&mut self, name: &[u8]) {
        let differs = self.judge.has_differences();
        self.told.put_bytes(name);
        self.told
            .put(if differs { ": differs\n" } else { ": ok\n" });
        self.told.put_bytes(self.judge.differences.as_slice());
        if self.judge.differences.is_cut() {
            self.told.cut();
        }
        self.count(differs != self.is_wrong);
    }

    /// Counts a case.
    pub fn count(&mut self, differs: bool) {
        if self.is_wrong {
            self.wrong = self.wrong.with(differs);
        } else {
            self.right = self.right.with(differs);
        }
    }
}

impl Count {
    /// One case more.
    fn with(self, differs: bool) -> Count {
        Count {
            cases: self.cases.saturating_add(1),
            differ: self.differ.saturating_add(u64::from(differs)),
        }
    }
}

/// Takes the names of bytes that stand before the first case, and tells the lines that can't be read.
fn take_names(judge: &mut Judge, lines: &[CaseLine<'_>]) {
    for line in lines {
        judge.reader.at = line.at;
        if line.is("let") {
            judge.reader.take_name(line.rest);
        } else {
            judge.reader.fail(CaseFault::UnknownWord);
        }
        judge.has_fault();
    }
}
