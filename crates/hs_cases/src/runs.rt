//! The runs of a case, one behind the other.
use crate::cost::{bytes_of, cost_of};
use crate::judge::judge_run;
use crate::run::{Failing, Seen, Stop, disks_of, end_of, run_over};
use crate::stops::judge_stops;
use hs_casebook::{CaseFault, Each, Pass};
use hs_compare::Judge;

/// Judges the runs of a case: once, or once for each call that is to fail.
pub fn judge_runs(judge: &mut Judge, passes: &[Pass]) {
    let [first, ..] = passes else {
        return;
    };
    match first.given.each {
        None => judge_once(judge, passes, None),
        Some(each) => judge_each(judge, passes, each),
    }
}

/// Judges the runs of a case for each call that is to fail, up to the first that differs.
fn judge_each(judge: &mut Judge, passes: &[Pass], each: Each) {
    let peer = each.peer;
    for call in each.first..each.last.saturating_add(1) {
        if judge.has_differences() {
            break;
        }
        judge.note.clear();
        judge
            .note
            .put_form(", where call # of # fails", &[call, u64::from(peer)]);
        judge.known.call = call;
        judge_once(judge, passes, Some(Failing { peer, call }));
    }
}

/// Judges the runs of a case, of which the first one may have a call that fails.
fn judge_once(judge: &mut Judge, passes: &[Pass], failing: Option<Failing>) {
    let (runs, behind) = split_stops(passes);
    if let Some(seen) = judge_chain(judge, runs, None, failing) {
        judge_stops(judge, behind, &seen, bytes_of(runs));
    }
}

/// The runs before the first that is behind stops, and those from it on.
fn split_stops(passes: &[Pass]) -> (&[Pass], &[Pass]) {
    for end in 0..passes.len() {
        if passes[end].is_behind_stops() {
            return passes.split_at(end);
        }
    }
    (passes, &[])
}

/// Judges runs of which each is begun on what the one before left, and gives the last one. It ends
/// at a run that can't be made.
pub fn judge_chain(
    judge: &mut Judge,
    passes: &[Pass],
    before: Option<(&Seen, Stop)>,
    failing: Option<Failing>,
) -> Option<Seen> {
    let [first, others @ ..] = passes else {
        return None;
    };
    let mut seen = judge_pass(judge, first, before, failing)?;
    for pass in others {
        let stop = end_of(&seen);
        seen = judge_pass(judge, pass, Some((&seen, stop)), None)?;
    }
    Some(seen)
}

/// Judges a run. None where it can't be made.
fn judge_pass(
    judge: &mut Judge,
    pass: &Pass,
    before: Option<(&Seen, Stop)>,
    failing: Option<Failing>,
) -> Option<Seen> {
    judge.reader.at = pass.at;
    judge.reader.spend(cost_of(pass));
    if judge.has_fault() {
        return None;
    }
    let disks = disks_of(&mut judge.reader, pass, before, failing);
    let seen = run_over(&mut judge.reader, pass, disks);
    match &seen {
        Some(seen) => judge_run(judge, pass, seen),
        None => judge.reader.fail(CaseFault::UnknownWord),
    }
    judge.has_fault();
    seen
}
