//! Entries of a log as text.
use crate::text::Text;
use hs_entry::{Entry, EntryFault, read_entry};
use hs_limits::{Address, Delta, Key};
use hs_shared::SharedBytes;
use std::alloc::Global;

/// Puts the number and the entry that the bytes spell, or why they spell none.
pub(crate) fn put_entry(alloc: Global, bytes: &[u8], out: &mut Text) {
    match entry_of(alloc, bytes) {
        Ok((number, entry)) => {
            out.put_form("# ", &[number]);
            put_fields(&entry, out);
        }
        Err(fault) => put_fault(fault, out),
    }
}

/// The number and the entry that the bytes spell.
pub(crate) fn entry_of(alloc: Global, bytes: &[u8]) -> Result<(u64, Entry), EntryFault> {
    let bytes = Vec::from_slice(alloc, bytes)?;
    read_entry(alloc, SharedBytes::from_vec(alloc, bytes)?)
}

/// Puts an entry: its kind and its fields.
pub(crate) fn put_fields(entry: &Entry, out: &mut Text) {
    match entry {
        Entry::View { view } => out.put_form("view #", &[*view]),
        Entry::Block { op, least, bytes } => {
            out.put_form("block op # least #", &[*op, *least]);
            out.put_hex(" bytes ", bytes.as_slice());
        }
        Entry::Mark {
            op,
            least,
            block,
            address,
        } => {
            out.put_form("mark op # least # block #", &[*op, *least, *block]);
            out.put_hex(" address ", &address.0);
        }
        Entry::Root {
            op,
            held,
            address,
            key,
        } => put_root(*op, *held, address, key, out),
        _ => put_more(entry, out),
    }
}

/// Puts an entry of a kind that is not of blocks and roots that are kept.
fn put_more(entry: &Entry, out: &mut Text) {
    match entry {
        Entry::Drop { op, key } => {
            out.put_form("drop op #", &[*op]);
            out.put_named(" key ", key.as_slice());
        }
        Entry::Enter { op, epoch } => out.put_form("enter op # epoch #", &[*op, *epoch]),
        Entry::Got {
            sender,
            epoch,
            round,
            total,
            deltas,
        } => {
            out.put_form("got sender # epoch #", &[u64::from(*sender), *epoch]);
            out.put_form(" round # total #", &[u64::from(*round), u64::from(*total)]);
            put_deltas(deltas.as_slice(), out);
        }
        // Reading gives no entry of these kinds yet.
        _ => out.put("kept"),
    }
}

/// Puts a root that was retained.
fn put_root(op: u64, held: u64, address: &Address, key: &Key, out: &mut Text) {
    out.put_form("root op # held #", &[op, held]);
    out.put_hex(" address ", &address.0);
    out.put_named(" key ", key.as_slice());
}

/// Puts the amount of each address.
fn put_deltas(deltas: &[Delta], out: &mut Text) {
    out.put_form(" deltas #", &[deltas.len() as u64]);
    for delta in deltas {
        out.put_hex(" ", &delta.address.0);
        out.put_form(" #", &[u64::from(delta.amount)]);
    }
}

/// Puts why bytes spell no entry.
fn put_fault(fault: EntryFault, out: &mut Text) {
    let (form, number) = match fault {
        EntryFault::Short { at } => ("short #", at),
        EntryFault::BadKind { found } => ("badkind #", u64::from(found)),
        EntryFault::BadField { at } => ("badfield #", at),
        EntryFault::Trailing { at } => ("trailing #", at),
        EntryFault::NoMemory => ("nomemory", 0),
    };
    out.put_form(form, &[number]);
}
