//! Lines of a script that were begun, and have no answer when it has ended.
use hs_journal::{JournalEntry, Who};
use hs_model::CourseItem;
use hs_promise::{Outcome, Status};
use std::alloc::{AllocError, Global};
use std::io;
use std::io::Write;

/// The first client's line without an answer, and how many there are behind it.
#[derive(Clone, Copy, PartialEq, Eq)]
pub struct Unanswered {
    pub line: u64,
    pub more: u64,
}

/// Writes which line of a script has no answer, where the script has ended and one has none.
pub fn tell_unanswered<E: Write>(
    alloc: Global,
    errors: &mut E,
    outcome: &Outcome,
) -> io::Result<()> {
    match &outcome.status {
        Status::Done => {}
        _ => return Ok(()),
    }
    let answered = answered_lines(alloc, outcome.journal.entries())?;
    let Some(found) = without_answer(outcome.course.as_slice(), &answered) else {
        return Ok(());
    };
    let mut line = Vec::new(alloc);
    let first = found.line;
    let more = found.more;
    write!(line, "hydra: line {first} has no answer")?;
    if more > 0 {
        write!(line, ", nor have {more} behind it")?;
    }
    write!(line, ": a script ends with settle\n")?;
    errors.write_all(&line)
}

// The lines of which entries are, ascending.
fn answered_lines(alloc: Global, entries: &[JournalEntry]) -> Result<Vec<u64>, AllocError> {
    let mut lines = Vec::new(alloc);
    for entry in entries {
        if let Who::Line(line) = entry.who {
            lines.push(line)?;
        }
    }
    lines.sort_unstable();
    Ok(lines)
}

/// The lines that a course has begun and that are not among these, which ascend.
pub fn without_answer(course: &[CourseItem], answered: &[u64]) -> Option<Unanswered> {
    let mut found = None;
    for item in course {
        if let CourseItem::Begun { line, .. } = item {
            if answered.binary_search(line).is_err() {
                found = Some(with_line(found, *line));
            }
        }
    }
    found
}

// One more line that has none.
fn with_line(found: Option<Unanswered>, line: u64) -> Unanswered {
    match found {
        Some(before) => Unanswered {
            line: before.line,
            more: before.more.saturating_add(1),
        },
        None => Unanswered { line, more: 0 },
    }
}
