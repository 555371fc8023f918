//! A list of entries, and a journal.
use hs_entry::{Entry, EntryList};
use hs_journal::{Journal, JournalEntry, Who};
use hs_model::{Deed, Reply};
use std::test::Fail;

#[test]
fn a_list_takes_an_entry(rt: HostRuntime) -> Result<(), Fail> {
    let mut list = EntryList::new(rt.alloc());
    if list.rank().number == 0 {
        list.push(1, Entry::View { view: 3 })?;
    }
    assert_eq!(rt; list.rank().view, 3);
    Ok(())
}

#[test]
fn a_journal_takes_an_entry(rt: HostRuntime) -> Result<(), Fail> {
    let mut journal = Journal::new(rt.alloc(), 1);
    journal.push(JournalEntry {
        who: Who::Line(1),
        moment: 0,
        deed: Deed::Nothing,
        reply: Reply::Ok,
    })?;
    assert_eq!(rt; journal.entries().len(), 1);
    Ok(())
}
