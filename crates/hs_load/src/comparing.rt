//! Where what was kept parts from the journal and from the book.
ghost use Rattle.std.specs.Prelude.{◌≡◌, ◌↔◌, ◌≤◌, IfNone, IfSome, IsTrue, None, Option, Some, length, slice_get};
ghost use Rattle.hs_load.specs.Compared.{PartAt, answer_in, answer_of, is_own, own_answers};
ghost use Rattle.hs_load.specs.Owners.{is_of};

use crate::owners::is_of;
use hs_journal::{JournalEntry, Who};
use hs_limits::Name;
use hs_model::{Deed, Reply};

/// Where a list of answers parts from its owner's in the journal: the place in the list, and the place in
/// the journal of the answer that would stand there, where there is one.
#[derive(Clone, Copy, Debug)]
pub(crate) struct Parting {
    pub(crate) place: usize,
    pub(crate) journal: Option<usize>,
}

/// Whether an entry answers a line, and its deed is an owner's.
fn is_own(sessions: &[Name], owner: usize, entry: &JournalEntry) -> bool
    ensures { result ≡ is_own (is_of sessions.now owner) entry.now }
{
    match entry.who {
        Who::Line(_) => is_of(sessions, owner, &entry.deed),
        Who::Shard(_) | Who::Store => false,
    }
}

/// Whether an answer that was kept is an entry at a place of the journal.
fn is_kept(item: &(u64, Deed, Reply), place: usize, entry: &JournalEntry) -> bool
    ensures { IsTrue result ↔ (item.now ≡ answer_of place entry.now) }
{
    let (at, deed, reply) = item;
    *at == place as u64 && deed.is_same(&entry.deed) && reply.is_same(&entry.reply)
}

/// Where a list of answers parts from its owner's answers in the journal.
pub(crate) fn first_parting(
    sessions: &[Name],
    owner: usize,
    journal: &[JournalEntry],
    kept: &[(u64, Deed, Reply)],
) -> Option<Parting>
    ensures none { IfNone result (kept.now ≡ own_answers (is_of sessions.now owner) journal.now) }
    ensures some { IfSome result (λ parting.
        PartAt parting.place kept.now (own_answers (is_of sessions.now owner) journal.now)) }
    ensures there { IfSome result (λ parting.
        slice_get (own_answers (is_of sessions.now owner) journal.now) parting.place
        ≡ answer_in journal.now parting.journal) }
{
    let mut next = 0;
    for (place, entry) in journal.iter().enumerate() {
        if is_own(sessions, owner, entry) {
            match kept.get(next) {
                Some(item) if is_kept(item, place, entry) => next += 1,
                _ => {
                    return Some(Parting {
                        place: next,
                        journal: Some(place),
                    });
                }
            }
        }
    }
    if next < kept.len() {
        return Some(Parting {
            place: next,
            journal: None,
        });
    }
    None
}

/// Where a list of numbers parts from another.
pub(crate) fn first_apart(one: &[u64], other: &[u64]) -> Option<usize>
    ensures none { IfNone result (one.now ≡ other.now) }
    ensures some { IfSome result (λ place. PartAt place one.now other.now) }
{
    for (place, number) in one.iter().enumerate() {
        match other.get(place) {
            Some(there) if there == number => {}
            _ => return Some(place),
        }
    }
    if one.len() < other.len() {
        return Some(one.len());
    }
    None
}
