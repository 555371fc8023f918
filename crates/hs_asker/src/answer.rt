//! The answer of a line among what was answered.
ghost use Rattle.std.specs.List.{AllByRecursion};
ghost use Rattle.std.specs.Prelude.{◌≡◌, ◌≤◌, IfErr, IfOk, IfSome, IsTrue, drop, length, true};
ghost use Rattle.hs_asker.specs.Answer.{HasAnswer, IsAnswerAt, IsAnswered};
ghost use Rattle.hs_asker.specs.Kinds.{kind_may};
ghost use Rattle.hs_asking.specs.Asked.{IsOfNoLine};
ghost use Rattle.hs_desk.specs.declared.fault.CoreFault.TheVariants.{NoMemory};

use crate::kinds::{Kind, may_be_told};
use hs_desk::CoreFault;
use hs_journal::{JournalEntry, Who};
use hs_model::Reply;
use std::alloc::Global;

/// The place of the only entry of a line among some, where no other line has one.
fn place_of(entries: &[JournalEntry], line: u64) -> Option<usize>
    ensures { IfSome result (λ place. IsAnswerAt entries.now line place) }
{
    let mut found = None;
    for place in 0..entries.len() {
        if let Who::Line(number) = entries[place].who {
            if number != line || found.is_some() {
                return None;
            }
            found = Some(place);
        }
    }
    found
}

/// What a line was answered, where an operation of a kind may be told that. That there is no such answer
/// counts as want of memory: this is asked where there is one.
fn answer_of(
    alloc: Global,
    entries: &[JournalEntry],
    line: u64,
    kind: Kind,
) -> Result<Reply, CoreFault>
    ensures answer { IfOk result (λ told. HasAnswer entries.now line told) }
    ensures may { IfOk result (λ told. kind_may kind told ≡ true) }
    ensures only { IfErr result (λ fault. fault ≡ NoMemory) }
{
    let Some(place) = place_of(entries, line) else {
        return Err(CoreFault::NoMemory);
    };
    let reply = &entries[place].reply;
    if !may_be_told(kind, reply) {
        return Err(CoreFault::NoMemory);
    }
    match reply.copy(alloc) {
        Ok(told) => Ok(told),
        Err(_) => Err(CoreFault::NoMemory),
    }
}

/// What a line was answered behind the first of some entries.
pub(crate) fn answer_behind(
    alloc: Global,
    entries: &[JournalEntry],
    from: usize,
    line: u64,
    kind: Kind,
) -> Result<Reply, CoreFault>
    requires { from ≤ length entries.now }
    ensures answer { IfOk result (λ told. HasAnswer (drop from entries.now) line told) }
    ensures may { IfOk result (λ told. kind_may kind told ≡ true) }
    ensures only { IfErr result (λ fault. fault ≡ NoMemory) }
{
    answer_of(alloc, &entries[from..], line, kind)
}

/// Whether a line was answered behind the first of some entries, what an operation of a kind may be told.
#[tactic(auto, using(crate::proofs::ScanLemmas::answered_at))]
pub(crate) fn is_answered(entries: &[JournalEntry], from: usize, line: u64, kind: Kind) -> bool
    requires { from ≤ length entries.now }
    ensures { IsTrue result → IsAnswered (drop from entries.now) line kind }
{
    let behind = &entries[from..];
    let Some(place) = place_of(behind, line) else {
        return false;
    };
    may_be_told(kind, &behind[place].reply)
}

/// Whether a line has an entry behind the first of some.
pub(crate) fn has_answer(entries: &[JournalEntry], from: usize, line: u64) -> bool {
    for place in from..entries.len() {
        if let Who::Line(number) = entries[place].who {
            if number == line {
                return true;
            }
        }
    }
    false
}

/// Whether no entry is of a line.
pub(crate) fn are_of_no_line(entries: &[JournalEntry]) -> bool
    ensures { IsTrue result → AllByRecursion IsOfNoLine entries.now }
{
    for entry in entries {
        if let Who::Line(_) = entry.who {
            return false;
        }
    }
    true
}
