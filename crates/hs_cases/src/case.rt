//! A case of any kind.
use crate::copies::with_copies;
use crate::runs::judge_runs;
use hs_casebook::{CaseFault, CaseLine, found, passes_of, plain_of};
use hs_compare::{Judge, judge_calls, judge_pairs, judge_plain};

/// The kinds of cases that a word of their own begins.
#[derive(Clone, Copy)]
enum Kind {
    Run,
    Plain,
    Disk,
}

/// The words of these kinds.
const KINDS: [(&str, Kind); 3] = [
    ("run", Kind::Run),
    ("plain", Kind::Plain),
    ("disk", Kind::Disk),
];

/// Judges a case by its lines. The word of the one behind its name says of which kind it is. Where runs
/// are to have so many copies of each shard it answers whether the case can be tried so.
pub fn judge_case(
    judge: &mut Judge,
    head: &CaseLine<'_>,
    lines: &[CaseLine<'_>],
    copies: Option<u8>,
) -> bool {
    let [first, rest @ ..] = lines else {
        judge.refuse(head.at, CaseFault::Empty);
        return true;
    };
    let kind = found(&KINDS, first.word);
    if let Some(copies) = copies {
        return matches!(kind, Some(Kind::Run)) && judge_copies(judge, first, rest, copies);
    }
    match kind {
        Some(Kind::Run) => judge_script(judge, first, rest),
        Some(Kind::Plain) => judge_plainly(judge, first, rest),
        Some(Kind::Disk) => judge_calls(judge, rest),
        None => judge_pairs(judge, lines),
    }
    true
}

/// Judges the runs of a case.
fn judge_script(judge: &mut Judge, first: &CaseLine<'_>, rest: &[CaseLine<'_>]) {
    let passes = passes_of(&mut judge.reader, first, rest);
    if !judge.has_fault() {
        judge_runs(judge, &passes);
    }
}

/// Judges the runs of a case of one copy with so many. It answers false where it can't be tried so.
fn judge_copies(
    judge: &mut Judge,
    first: &CaseLine<'_>,
    rest: &[CaseLine<'_>],
    copies: u8,
) -> bool {
    let mut passes = passes_of(&mut judge.reader, first, rest);
    if !with_copies(&mut judge.reader, &mut passes, copies) {
        return judge.has_fault();
    }
    if !judge.has_fault() {
        judge_runs(judge, &passes);
    }
    true
}

/// Judges a script by the plain store.
fn judge_plainly(judge: &mut Judge, first: &CaseLine<'_>, rest: &[CaseLine<'_>]) {
    let pass = plain_of(&mut judge.reader, first, rest);
    if !judge.has_fault() {
        judge_plain(judge, &pass);
    }
}
