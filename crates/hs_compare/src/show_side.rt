//! Sides of a disk as text.
use crate::show_entry::{entry_of, put_fields};
use crate::text::Text;
use hs_casebook::split_word;
use hs_entry::Entry;
use hs_ports::{MemoryDisk, Side, Watch};
use hs_side::{SideFault, SideLog};
use std::alloc::Global;

/// Puts what opening a side of these bytes gives.
pub(crate) fn put_opened(alloc: Global, bytes: &[u8], out: &mut Text) {
    match Vec::from_slice(alloc, bytes) {
        Ok(bytes) => {
            let mut disk = MemoryDisk::new(alloc, bytes, Vec::new(alloc), Vec::new(alloc));
            put_side(alloc, &mut disk, out);
        }
        Err(_) => out.cut(),
    }
}

/// Puts what opening a side of a disk gives.
fn put_side(alloc: Global, disk: &mut MemoryDisk, out: &mut Text) {
    let mut watch = Watch::new();
    match SideLog::open(alloc, disk, &mut watch, Side::Zero) {
        Ok(log) => put_log(&log, out),
        Err(SideFault::NotALog { at }) => out.put_form("notalog #", &[at]),
        Err(SideFault::Disk) => out.put("disk"),
        Err(SideFault::NoMemory) => out.put("nomemory"),
    }
}

/// Puts the head of a log, and the places of its frames.
fn put_log(log: &SideLog, out: &mut Text) {
    match log.generation() {
        None => out.put("blank"),
        Some(generation) => {
            let header = log.header();
            let shape = [u64::from(header.shards), u64::from(header.copies)];
            out.put_form("shards # copies #", &shape);
            out.put_form(
                " peer # generation # places ",
                &[u64::from(header.peer), generation],
            );
            out.put_numbers(log.places());
        }
    }
}

/// The kinds of the entries in the sealed frames of a side, parted by spaces.
pub fn kinds_of(alloc: Global, side: &[u8]) -> Text {
    let mut kinds = Text::new(alloc);
    let mut rest = side.get(17..).unwrap_or(&[]);
    for _ in 0..side.len() {
        let [0xa5, a, b, c, d, behind @ ..] = rest else {
            break;
        };
        if !kinds.as_slice().is_empty() {
            kinds.put(" ");
        }
        let len = u32::from_be_bytes([*a, *b, *c, *d]) as usize;
        put_kind(alloc, behind.get(..len).unwrap_or(&[]), &mut kinds);
        rest = behind.get(len..).unwrap_or(&[]);
    }
    kinds
}

/// Puts the kind of the entry that bytes spell.
fn put_kind(alloc: Global, payload: &[u8], out: &mut Text) {
    match entry_of(alloc, payload) {
        Ok((_, entry)) => put_kind_of(alloc, &entry, out),
        Err(_) => out.put("none"),
    }
}

/// Puts the kind of an entry: the first word of what it is shown as.
fn put_kind_of(alloc: Global, entry: &Entry, out: &mut Text) {
    let mut shown = Text::new(alloc);
    put_fields(entry, &mut shown);
    out.put_bytes(split_word(shown.as_slice()).0);
}
