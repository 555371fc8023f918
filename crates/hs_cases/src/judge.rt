//! What came of a run, beside what has to come.
use crate::cost::line_feeds;
use crate::run::{Seen, left_on};
use crate::show_run::{course_text, status_text};
use hs_casebook::{Left, Pass, WantedSide};
use hs_compare::{Judge, Text, kinds_of};
use hs_top::{Status, exit_code, fault_line};

/// How many bytes stand in a row of a side.
const ROW: usize = 16;

/// Tells what differs in a run.
pub fn judge_run(judge: &mut Judge, pass: &Pass, seen: &Seen) {
    judge.compare(pass.at, "text", &pass.wanted.text, &seen.text);
    judge_status(judge, pass, &seen.outcome.status);
    judge_line(judge, pass, seen.outcome.line);
    judge_counts(judge, pass, seen);
    judge_course(judge, pass, seen);
    judge_error(judge, pass, &seen.outcome.status);
    for wanted in &pass.wanted.sides {
        judge_side(judge, wanted, seen);
    }
}

/// Compares the status. Where several may come, one of them has to.
fn judge_status(judge: &mut Judge, pass: &Pass, status: &Status) {
    let came = status_text(judge.reader.alloc, status);
    let wanted = if pass.wanted.statuses.is_empty() {
        b"done\n".as_slice()
    } else {
        pass.wanted.statuses.as_slice()
    };
    if !has_line(judge, wanted, came.as_slice()) {
        judge.compare_text(pass.at, "status", wanted, &came);
    }
}

/// Whether one of the lines is this one, which a line feed ends.
fn has_line(judge: &mut Judge, lines: &[u8], line: &[u8]) -> bool {
    let line = without_feed(line);
    for other in &judge.reader.split(lines, b'\n') {
        if *other == line {
            return true;
        }
    }
    false
}

/// A line without the line feed that ends it.
fn without_feed(line: &[u8]) -> &[u8] {
    line.strip_suffix(b"\n".as_slice()).unwrap_or(line)
}

/// Compares the number of the last line that was begun.
fn judge_line(judge: &mut Judge, pass: &Pass, came: u64) {
    match pass.wanted.texts.get(b"line".as_slice()) {
        Some(wanted) => compare_number(judge, pass.at, "line", wanted, came),
        None => {
            let mut wanted = Text::new(judge.reader.alloc);
            wanted.put_number(lines_in(&pass.script));
            compare_number(judge, pass.at, "line", wanted.as_slice(), came);
        }
    }
}

/// How many lines a script has. The last may lack its line feed.
fn lines_in(script: &[u8]) -> u64 {
    let ended = line_feeds(script);
    match script {
        [] => 0,
        [.., b'\n'] => ended,
        _ => ended.saturating_add(1),
    }
}

/// Compares the numbers of entries, the last moment, and the exit status.
fn judge_counts(judge: &mut Judge, pass: &Pass, seen: &Seen) {
    let journal = seen.outcome.journal.entries().len() as u64;
    judge_number(judge, pass, "journal", journal);
    let refused = seen.outcome.refused.len() as u64;
    judge_number(judge, pass, "refused", refused);
    judge_number(judge, pass, "moment", seen.moment);
    let exit = u64::from(exit_code(&seen.outcome.status));
    judge_number(judge, pass, "exit", exit);
}

/// Compares a number, where one is wanted.
fn judge_number(judge: &mut Judge, pass: &Pass, part: &str, came: u64) {
    if let Some(wanted) = pass.wanted.texts.get(part.as_bytes()) {
        compare_number(judge, pass.at, part, wanted, came);
    }
}

/// Compares a number.
fn compare_number(judge: &mut Judge, at: u64, part: &str, wanted: &[u8], came: u64) {
    let mut text = Text::new(judge.reader.alloc);
    text.put_number(came);
    judge.compare_text(at, part, wanted, &text);
}

/// Compares the course, where one is wanted.
fn judge_course(judge: &mut Judge, pass: &Pass, seen: &Seen) {
    if pass.wanted.has_course {
        let came = course_text(judge.reader.alloc, seen.outcome.course.as_slice());
        judge.compare_text(pass.at, "course", &pass.wanted.course, &came);
    }
}

/// Compares the line on standard error, where one is wanted.
fn judge_error(judge: &mut Judge, pass: &Pass, status: &Status) {
    let Some(wanted) = pass.wanted.texts.get(b"error".as_slice()) else {
        return;
    };
    let mut came = Vec::new(judge.reader.alloc);
    if fault_line(status, &mut came).is_err() {
        judge.differences.cut();
    }
    judge.compare(pass.at, "error", wanted, without_feed(&came));
}

/// Compares a side.
fn judge_side(judge: &mut Judge, wanted: &WantedSide, seen: &Seen) {
    match left_on(&mut judge.reader, seen, wanted.peer, wanted.side) {
        Some(left) => judge_left(judge, wanted.at, &wanted.left, &left),
        None => judge.compare(wanted.at, "disk", b"a disk", b""),
    }
}

/// Compares what was left on a side.
fn judge_left(judge: &mut Judge, at: u64, wanted: &Left, left: &[u8]) {
    match wanted {
        Left::Whole(bytes) => compare_bytes(judge, at, bytes, left),
        Left::Front(bytes) => {
            let front = left.get(..bytes.len()).unwrap_or(left);
            compare_bytes(judge, at, bytes, front);
        }
        Left::Length(length) => {
            let mut wanted = Text::new(judge.reader.alloc);
            wanted.put_number(*length);
            compare_number(judge, at, "length", wanted.as_slice(), left.len() as u64);
        }
        Left::Log(kinds) => {
            let came = kinds_of(judge.reader.alloc, left);
            judge.compare_text(at, "log", kinds, &came);
        }
    }
}

/// Compares bytes, row by row.
fn compare_bytes(judge: &mut Judge, at: u64, wanted: &[u8], came: &[u8]) {
    let mut wanted_rows = Text::new(judge.reader.alloc);
    put_rows(wanted, &mut wanted_rows);
    let mut came_rows = Text::new(judge.reader.alloc);
    put_rows(came, &mut came_rows);
    judge.compare_text(at, "row", wanted_rows.as_slice(), &came_rows);
}

/// Puts the bytes of a side, sixteen a line, each line with the place of its first one.
fn put_rows(bytes: &[u8], out: &mut Text) {
    let mut at = 0u64;
    for row in bytes.chunks(ROW) {
        out.put_number(at);
        out.put_hex(" ", row);
        out.put("\n");
        at = at.saturating_add(ROW as u64);
    }
}
