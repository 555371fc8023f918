//! Journals beside each other.
use hs_journal::{JournalEntry, Who};

/// Whom an entry of a book is about, as a script has it: there each operation is a line with a settle
/// behind it.
fn in_script(who: Who) -> Who {
    match who {
        Who::Line(number) => Who::Line(number.saturating_mul(2).saturating_sub(1)),
        Who::Shard(shard) => Who::Shard(shard),
        Who::Store => Who::Store,
    }
}

/// Whether an entry of a book is that of a script, moments aside.
fn is_same(book: &JournalEntry, script: &JournalEntry) -> bool {
    in_script(book.who) == script.who
        && book.deed.is_same(&script.deed)
        && book.reply.is_same(&script.reply)
}

/// Whether the entries of a book are those of a script, one by one, moments aside.
pub(crate) fn are_same(book: &[JournalEntry], script: &[JournalEntry]) -> bool {
    if book.len() != script.len() {
        return false;
    }
    for place in 0..book.len() {
        if !is_same(&book[place], &script[place]) {
            return false;
        }
    }
    true
}
