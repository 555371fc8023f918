//! One content that a crash at a moment may have left, by a replay of the record.
ghost use Rattle.std.specs.Prelude.{◌≡◌, ◌<◌, ◌+◌, ◌≤◌, length, IfOk, OnOk};
ghost use Rattle.hs_ports.specs.Disk.{Loose, IsImage, overwritten, written};
ghost use Rattle.hs_ports.specs.Image.{Filled, told_all, shown_from, shown_with};
ghost use Rattle.hs_ports.specs.Replay.{seen_by, loose_by, seen_after, loose_after};

use crate::Tear;
use crate::change::{Change, Deed};
use crate::platter::overwrite;
use std::alloc::{AllocError, Global};

// Writes the first half over what is there, and zeros past the end for the rest.
fn write_half(alloc: Global, torn: &mut Vec<u8>, at: u64, bytes: &[u8]) -> Result<(), AllocError>
    ensures { (l : Loose) → IsImage l torn.old.items → OnOk result (
        IsImage (written at (length bytes.now) l) torn.new.items) }
{
    let start = torn.len().min(at as usize);
    overwrite(torn, at, &bytes[..bytes.len() / 2])?;
    let reach = bytes.len().min(torn.len() - start);
    let zeros = vec![in alloc; 0u8; bytes.len() - reach]?;
    torn.extend_from_slice(&zeros)?;
    Ok(())
}

// Fills what is there from the place on, at most `len` bytes.
fn fill(alloc: Global, torn: &mut Vec<u8>, at: u64, len: u64, byte: u8) -> Result<(), AllocError>
    ensures { OnOk result (Filled at len torn.old.items torn.new.items) }
{
    let start = torn.len().min(at as usize);
    let count = (torn.len() - start).min(len as usize);
    let filled = vec![in alloc; byte; count]?;
    overwrite(torn, at, &filled)?;
    Ok(())
}

// What a write that was done may leave.
fn tear_write(
    alloc: Global,
    tear: Tear,
    torn: &mut Vec<u8>,
    at: u64,
    bytes: &[u8],
) -> Result<(), AllocError>
    ensures image { (l : Loose) → IsImage l torn.old.items → OnOk result (
        IsImage (written at (length bytes.now) l) torn.new.items) }
    ensures new { tear ≡ Tear.New → OnOk result (
        torn.new.items ≡ overwritten at bytes.now torn.old.items) }
{
    match tear {
        Tear::Old => {}
        Tear::New => overwrite(torn, at, bytes)?,
        Tear::Half => write_half(alloc, torn, at, bytes)?,
        Tear::Fill(byte) => {
            let filled = vec![in alloc; byte; bytes.len()]?;
            overwrite(torn, at, &filled)?;
        }
    }
    Ok(())
}

// What a call that failed may leave of the `len` bytes from the place on.
fn tear_failed(
    alloc: Global,
    tear: Tear,
    torn: &mut Vec<u8>,
    at: u64,
    len: u64,
) -> Result<(), AllocError>
    ensures filled { OnOk result (Filled at len torn.old.items torn.new.items) }
    ensures new { tear ≡ Tear.New → OnOk result (torn.new.items ≡ torn.old.items) }
{
    match tear {
        Tear::Fill(byte) => fill(alloc, torn, at, len, byte),
        _ => Ok(()),
    }
}

// Does a deed again, on what a read gives and on one of the contents that a crash may leave.
fn redo(
    alloc: Global,
    tear: Tear,
    seen: &mut Vec<u8>,
    torn: &mut Vec<u8>,
    deed: &Deed,
) -> Result<(), AllocError>
    ensures seen { OnOk result (seen.new.items ≡ seen_after deed.now seen.old.items) }
    ensures image { (l : Loose) → IsImage l torn.old.items → OnOk result (
        IsImage (loose_after deed.now seen.old.items l) torn.new.items) }
    ensures new { tear ≡ Tear.New → torn.old.items ≡ seen.old.items → OnOk result (
        torn.new.items ≡ seen.new.items) }
{
    match deed {
        Deed::Wrote { at, bytes } => {
            overwrite(seen, *at, bytes.as_slice())?;
            tear_write(alloc, tear, torn, *at, bytes.as_slice())
        }
        Deed::Cut { len } => {
            seen.truncate(*len as usize);
            if tear != Tear::Old {
                torn.truncate(*len as usize);
            }
            Ok(())
        }
        Deed::Synced => {
            torn.clear();
            torn.extend_from_slice(seen)?;
            Ok(())
        }
        Deed::WriteFailed { at, len } => tear_failed(alloc, tear, torn, *at, *len),
        Deed::CutFailed { len } => tear_failed(alloc, tear, torn, *len, u64::MAX),
        Deed::SyncFailed => Ok(()),
    }
}

// Does the calls of a record again, from the first bytes on.
pub fn replay(
    alloc: Global,
    tear: Tear,
    first: &[u8],
    changes: &[Change],
) -> Result<Vec<u8>, AllocError>
    ensures image { IfOk result (λ torn.
        IsImage (loose_by first.now (told_all changes.now)) torn.items) }
    ensures new { IfOk result (λ torn. tear ≡ Tear.New →
        torn.items ≡ seen_by first.now (told_all changes.now)) }
{
    let mut seen = Vec::from_slice(alloc, first)?;
    let mut torn = Vec::from_slice(alloc, first)?;
    for change in changes {
        redo(alloc, tear, &mut seen, &mut torn, &change.deed)?;
    }
    Ok(torn)
}

// How many calls show at a moment, where n did and this one comes after i.
fn shown_after(change: &Change, moment: u64, i: usize, n: usize) -> usize
    requires { i < usize.MAX }
    ensures { result ≡ shown_with moment i n change.now }
{
    if change.moment < moment {
        return i + 1;
    }
    if change.moment > moment {
        return n;
    }
    match change.deed {
        Deed::Synced => i,
        _ => i + 1,
    }
}

/// How many calls of a record, from its front, show at a moment.
pub fn shown(changes: &[Change], moment: u64) -> usize
    ensures value { result ≡ shown_from moment 0 0 changes.now }
    ensures bound { result ≤ length changes.now }
{
    let mut n = 0;
    for (i, change) in changes.iter().enumerate() {
        n = shown_after(change, moment, i, n);
    }
    n
}
