//! The runs behind each stop of a run.
use crate::run::{Seen, Stop};
use crate::runs::judge_chain;
use hs_casebook::{CaseFault, Pass};
use hs_compare::{Judge, Known};
use hs_journal::{JournalEntry, Who};
use hs_model::{CourseItem, Reply};
use hs_ports::Tear;

/// In which ways what is being written at a stop is torn: it is as before, as it is to be, half of
/// it is, or it has one byte alone, that of an open gate or that of a closed one.
const TEARS: [(Tear, &str); 5] = [
    (Tear::Old, "Old"),
    (Tear::New, "New"),
    (Tear::Half, "Half"),
    (Tear::Fill(0xa5), "Fill(165)"),
    (Tear::Fill(0), "Fill(0)"),
];

/// Judges the runs behind each stop of a run, up to the first that differs.
pub fn judge_stops(judge: &mut Judge, passes: &[Pass], seen: &Seen, bytes: u64) {
    let [first, ..] = passes else {
        return;
    };
    let (from, to) = first.given.moments.unwrap_or((0, u64::MAX));
    let end = seen.moment.saturating_add(1);
    if end < from {
        return judge.refuse(first.at, CaseFault::NoMoment);
    }
    for moment in from..=to.min(end) {
        // An image is made by doing the calls up to the moment again.
        judge.reader.at = first.at;
        judge.reader.spend(moment.saturating_mul(bytes));
        if judge.has_fault() {
            return;
        }
        judge_moment(judge, passes, seen, moment);
    }
}

/// Judges the runs behind a stop at a moment, torn in each way, up to the first that differs.
fn judge_moment(judge: &mut Judge, passes: &[Pass], seen: &Seen, moment: u64) {
    for (tear, name) in &TEARS {
        if !judge.has_differences() {
            judge.note.clear();
            judge.note.put_form(", behind a stop at #, ", &[moment]);
            judge.note.put(name);
            let tear = *tear;
            judge_stop(judge, passes, seen, Stop { moment, tear });
        }
    }
}

/// Judges the runs behind one stop of a run.
fn judge_stop(judge: &mut Judge, passes: &[Pass], seen: &Seen, stop: Stop) {
    judge.known = known_at(seen, stop.moment, judge.known.call);
    judge_chain(judge, passes, Some((seen, stop)), None);
}

/// How many lines that stored a block were answered below a moment, and how many were begun.
fn known_at(seen: &Seen, moment: u64, call: u64) -> Known {
    let mut known = Known {
        answered: 0,
        begun: 0,
        call,
    };
    for entry in seen.outcome.journal.entries() {
        if let Reply::New { .. } = entry.reply {
            add_new(&mut known, seen, entry, moment);
        }
    }
    known
}

/// Counts an entry that answers a line that stored a block.
fn add_new(known: &mut Known, seen: &Seen, entry: &JournalEntry, moment: u64) {
    if entry.moment < moment {
        known.answered = known.answered.saturating_add(1);
    }
    if is_begun(seen, entry.who, moment) {
        known.begun = known.begun.saturating_add(1);
    }
}

/// Whether the line of an entry was begun below a moment.
fn is_begun(seen: &Seen, who: Who, moment: u64) -> bool {
    let Who::Line(begun) = who else {
        return false;
    };
    for item in seen.outcome.course.as_slice() {
        if let CourseItem::Begun { line, moment: at } = item {
            if *line == begun && *at < moment {
                return true;
            }
        }
    }
    false
}
