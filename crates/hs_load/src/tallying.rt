//! Whether what the last core counts is what the writers did, and the last deletions run.
ghost use Rattle.std.specs.List.{list_any};
ghost use Rattle.std.specs.Prelude.{◌≡◌, ◌+◌, ◌<◌, ◌^◌, sum_by, true};
ghost use Rattle.hs_core_words.specs.Plain.{plain_store};
ghost use Rattle.hs_load.specs.Reached.{EachIsReached};
ghost use Rattle.hs_load.specs.Tallied.{HasTallied, begins_run, deletes, is_delete, is_deletion, runs_at};

use crate::counting::roots_in;
use hs_core::Core;
use hs_journal::{JournalEntry, Who};
use hs_model::{Asked, Deed};
use hs_script::WriterSum;

/// How many deletions a load has: four beside the writers, and two behind them.
const DELETIONS: usize = 6;

/// Whether a refused operation is a deletion.
fn is_delete(asked: &Asked) -> bool
    ensures { result ≡ is_delete asked.now }
{
    matches!(asked, Asked::Delete)
}

/// Whether a deed begins a deletion run.
fn begins_run(deed: &Deed) -> bool
    ensures { result ≡ begins_run deed.now }
{
    matches!(deed, Deed::Entered { .. })
}

/// Whether a deed is that of a deletion, refused or not.
fn deletes(deed: &Deed) -> bool
    ensures { result ≡ deletes deed.now }
{
    match deed {
        Deed::Entered { .. } => true,
        Deed::Refused { asked } => is_delete(asked),
        _ => false,
    }
}

/// Whether an entry answers a deletion.
fn is_deletion(entry: &JournalEntry) -> bool
    ensures { result ≡ is_deletion entry.now }
{
    match entry.who {
        Who::Line(_) => deletes(&entry.deed),
        Who::Shard(_) | Who::Store => false,
    }
}

/// Whether an entry tells that the deletion of a line runs.
fn runs_at(line: u64, entry: &JournalEntry) -> bool
    ensures { result ≡ runs_at line entry.now }
{
    match entry.who {
        Who::Line(own) => own == line && begins_run(&entry.deed),
        Who::Shard(_) | Who::Store => false,
    }
}

/// Whether an entry does so.
fn one_runs_at(line: u64, entries: &[JournalEntry]) -> bool
    ensures { result ≡ list_any (λ entry. runs_at line entry) entries.now }
{
    entries.iter().any(|entry| runs_at(line, entry))
}

/// Whether so many files were kept.
fn are_kept(sums: &[WriterSum], roots: u64) -> bool
    ensures found { result ≡ true → roots ≡ sum_by (λ sum. sum.kept) sums.now }
    ensures only { roots ≡ sum_by (λ sum. sum.kept) sums.now → result ≡ true }
{
    let mut left = roots;
    for sum in sums {
        match left.checked_sub(u64::from(sum.kept)) {
            Some(rest) => left = rest,
            None => return false,
        }
    }
    left == 0
}

/// Whether a core has as many retained roots as files were kept, which reach each of its blocks (`reached`),
/// and its journal has the deletions of a load, of which the last two, behind a line, run. It takes no
/// memory.
pub(crate) fn has_tallied(sums: &[WriterSum], core: &Core, reached: bool, line: u64) -> bool
    requires room { line < 2 ^ 62 }
    requires reached { reached ≡ true → EachIsReached (plain_store core.now) }
    requires only { EachIsReached (plain_store core.now) → reached ≡ true }
    ensures found { result ≡ true → HasTallied sums.now core.now line }
    ensures only { HasTallied sums.now core.now line → result ≡ true }
{
    let entries = core.journal().entries();
    let deletions = entries.iter().filter(|entry| is_deletion(entry)).count();
    if !reached || deletions != DELETIONS || !are_kept(sums, roots_in(core)) {
        return false;
    }
    one_runs_at(line + 2, entries) && one_runs_at(line + 4, entries)
}
