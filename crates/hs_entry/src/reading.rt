//! Reading entries from their payloads.
ghost use Rattle.std.specs.Prelude.{◌≡◌, ◌≢◌, ℕ, ◌^◌, ◌<◌, length, slice_index, Ok, IfOk};
ghost use Rattle.hs_entry.specs.declared.entry.Entry.{Entry};
ghost use Rattle.hs_entry.specs.declared.entry.Entry.TheVariants as kinds;
ghost use Rattle.hs_entry.specs.Entries.{view_after};
ghost use Rattle.hs_entry.specs.Payload.{payload};
ghost use Rattle.hs_entry.specs.Reading.{IsReadable, IsReading, is_kind, view_at, block_at, mark_at, root_at, drop_at, enter_at, got_at, fields_at, entry_at, view_read, rank_read};

use crate::parts::{address_at, deltas_of, epoch_at, key_at, key_of, u8_at, u32_at, u64_at};
use crate::{Entry, EntryFault, Rank};
use hs_limits::spelt;
use hs_shared::SharedBytes;
use std::alloc::Global;

/// The number and the entry that the bytes spell, all of them. A Block keeps the bytes and lends its
/// spelling from them; it copies no bytes of a block. A Base and the kept frames are no kinds here.
pub fn read_entry(alloc: Global, bytes: SharedBytes) -> Result<(u64, Entry), EntryFault>
    // What is read is within the bounds, and spelled so.
    ensures found { IfOk result (λ x.
        (x.0 < 2 ^ 64) × IsReadable x.1 × (bytes ≡ payload x.0 x.1)) }
    // What is spelled so is read, unless memory runs out.
    ensures only { (number : ℕ) (entry : Entry) → number < 2 ^ 64 → IsReadable entry →
        bytes ≡ payload number entry → IsReading (λ x. x) result (Ok (number, entry)) }
    // Which fault it is: the first in the order of the bytes.
    ensures exact { IsReading (λ x. x) result (entry_at bytes) }
{
    let whole = len_of(bytes.as_slice());
    entry_of(alloc, whole, bytes)
}

/// How many bytes these are, each of them below 2^8.
fn len_of(bytes: &[u8]) -> u64
    ensures value { result ≡ length bytes.now }
    ensures each { (i : ℕ) → slice_index bytes.now i < 2 ^ 8 }
{
    bytes.len() as u64
}

/// The rank behind the entry that the bytes spell, where `before` is the rank without it. It reads
/// what `read_entry` reads, and copies no block.
#[tactic(auto, unfolding(crate::specs::Reading::entry_at))]
pub fn read_rank(alloc: Global, before: Rank, bytes: &[u8]) -> Result<Rank, EntryFault>
    ensures { IsReading (λ x. x) result (rank_read before (entry_at bytes.now)) }
{
    let whole = bytes.len() as u64;
    let (kind, rest) = u8_at(whole, bytes)?;
    if !is_kind(kind) {
        return Err(EntryFault::BadKind { found: kind });
    }
    let (number, fields) = u64_at(whole, rest)?;
    let view = view_in(alloc, before.view, kind, whole, fields)?;
    Ok(Rank { view, number })
}

/// The view behind the entry of these fields, where `before` is the view without it.
#[tactic(auto, unfolding(crate::specs::Reading::fields_at))]
fn view_in(
    alloc: Global,
    before: u64,
    kind: u8,
    whole: u64,
    bytes: &[u8],
) -> Result<u64, EntryFault>
    ensures { IsReading (λ x. x) result (view_read before (fields_at kind whole bytes.now)) }
{
    if kind == 2 {
        block_in(whole, bytes)?;
        return Ok(before);
    }
    let entry = plain_of(alloc, kind, whole, bytes)?;
    Ok(view_after(before, &entry))
}

/// The view behind an entry.
pub(crate) fn view_after(before: u64, entry: &Entry) -> u64
    ensures { result ≡ view_after before entry.now }
{
    match entry {
        Entry::View { view } | Entry::Base { view, .. } => *view,
        _ => before,
    }
}

/// The number and the entry that bytes spell, which are an input of `whole` bytes.
#[tactic(auto, unfolding(crate::specs::Reading::entry_at))]
fn entry_of(alloc: Global, whole: u64, bytes: SharedBytes) -> Result<(u64, Entry), EntryFault>
    requires { whole ≡ length bytes }
    ensures { IsReading (λ x. x) result (entry_at bytes) }
{
    let (kind, rest) = u8_at(whole, bytes.as_slice())?;
    if !is_kind(kind) {
        return Err(EntryFault::BadKind { found: kind });
    }
    let (number, _) = u64_at(whole, rest)?;
    let entry = fields_of(alloc, kind, whole, bytes.behind(9))?;
    Ok((number, entry))
}

/// Whether entries of this kind are read.
fn is_kind(kind: u8) -> bool
    ensures { result ≡ is_kind kind }
{
    kind >= 1 && kind <= 7
}

/// The fields of an entry of this kind, in an input of `whole` bytes.
#[tactic(auto, unfolding(crate::specs::Reading::fields_at))]
fn fields_of(alloc: Global, kind: u8, whole: u64, fields: SharedBytes) -> Result<Entry, EntryFault>
    ensures { IsReading (λ x. x) result (fields_at kind whole fields) }
{
    if kind == 2 {
        return block_of(whole, fields);
    }
    plain_of(alloc, kind, whole, fields.as_slice())
}

/// The fields of an entry of this kind, which is not a Block's, in an input of `whole` bytes.
#[tactic(auto, unfolding(crate::specs::Reading::fields_at))]
fn plain_of(alloc: Global, kind: u8, whole: u64, bytes: &[u8]) -> Result<Entry, EntryFault>
    requires { kind ≢ 2 }
    ensures { IsReading (λ x. x) result (fields_at kind whole bytes.now) }
{
    match kind {
        1 => view_of(whole, bytes),
        3 => mark_of(whole, bytes),
        4 => root_of(alloc, whole, bytes),
        5 => drop_of(alloc, whole, bytes),
        6 => enter_of(whole, bytes),
        7 => got_of(alloc, whole, bytes),
        _ => Err(EntryFault::BadKind { found: kind }),
    }
}

#[tactic(auto, unfolding(crate::specs::Reading::view_at))]
fn view_of(whole: u64, bytes: &[u8]) -> Result<Entry, EntryFault>
    ensures { IsReading (λ x. x) result (view_at whole bytes.now) }
{
    let (view, rest) = u64_at(whole, bytes)?;
    if view < 1 {
        return Err(EntryFault::BadField { at: 9 });
    }
    if !rest.is_empty() {
        return Err(EntryFault::Trailing { at: 17 });
    }
    Ok(Entry::View { view })
}

/// The fields of a Block, without a copy of its bytes.
#[tactic(auto, unfolding(crate::specs::Reading::block_at))]
fn block_in(whole: u64, bytes: &[u8]) -> Result<(u64, u64, &[u8]), EntryFault>
    ensures { IsReading (λ x. kinds.Block x.0 x.1 x.2.now) result (block_at whole bytes.now) }
{
    let (op, rest) = u64_at(whole, bytes)?;
    let (least, rest) = epoch_at(whole, 17, rest)?;
    if !spelt(rest) {
        return Err(EntryFault::BadField { at: 25 });
    }
    Ok((op, least, rest))
}

/// The Block of these fields. It keeps them, and lends its bytes from them.
fn block_of(whole: u64, fields: SharedBytes) -> Result<Entry, EntryFault>
    ensures { IsReading (λ x. x) result (block_at whole fields) }
{
    let (op, least, _) = block_in(whole, fields.as_slice())?;
    let bytes = fields.behind(16);
    Ok(Entry::Block { op, least, bytes })
}

#[tactic(auto, unfolding(crate::specs::Reading::mark_at))]
fn mark_of(whole: u64, bytes: &[u8]) -> Result<Entry, EntryFault>
    ensures { IsReading (λ x. x) result (mark_at whole bytes.now) }
{
    let (op, rest) = u64_at(whole, bytes)?;
    let (least, rest) = epoch_at(whole, 17, rest)?;
    let (block, rest) = u64_at(whole, rest)?;
    let (address, rest) = address_at(whole, rest)?;
    if !rest.is_empty() {
        return Err(EntryFault::Trailing { at: 65 });
    }
    Ok(Entry::Mark {
        op,
        least,
        block,
        address,
    })
}

#[tactic(auto, unfolding(crate::specs::Reading::root_at))]
fn root_of(alloc: Global, whole: u64, bytes: &[u8]) -> Result<Entry, EntryFault>
    ensures { IsReading (λ x. x) result (root_at whole bytes.now) }
{
    let (op, rest) = u64_at(whole, bytes)?;
    let (held, rest) = epoch_at(whole, 17, rest)?;
    let (address, rest) = address_at(whole, rest)?;
    let (key, rest) = key_at(whole, 57, rest)?;
    if !rest.is_empty() {
        return Err(EntryFault::Trailing {
            at: 58 + key.len() as u64,
        });
    }
    let key = key_of(alloc, key)?;
    Ok(Entry::Root {
        op,
        held,
        address,
        key,
    })
}

#[tactic(auto, unfolding(crate::specs::Reading::drop_at))]
fn drop_of(alloc: Global, whole: u64, bytes: &[u8]) -> Result<Entry, EntryFault>
    ensures { IsReading (λ x. x) result (drop_at whole bytes.now) }
{
    let (op, rest) = u64_at(whole, bytes)?;
    let (key, rest) = key_at(whole, 17, rest)?;
    if !rest.is_empty() {
        return Err(EntryFault::Trailing {
            at: 18 + key.len() as u64,
        });
    }
    let key = key_of(alloc, key)?;
    Ok(Entry::Drop { op, key })
}

#[tactic(auto, unfolding(crate::specs::Reading::enter_at))]
fn enter_of(whole: u64, bytes: &[u8]) -> Result<Entry, EntryFault>
    ensures { IsReading (λ x. x) result (enter_at whole bytes.now) }
{
    let (op, rest) = u64_at(whole, bytes)?;
    let (epoch, rest) = epoch_at(whole, 17, rest)?;
    if !rest.is_empty() {
        return Err(EntryFault::Trailing { at: 25 });
    }
    Ok(Entry::Enter { op, epoch })
}

#[tactic(auto, unfolding(crate::specs::Reading::got_at))]
fn got_of(alloc: Global, whole: u64, bytes: &[u8]) -> Result<Entry, EntryFault>
    ensures { IsReading (λ x. x) result (got_at whole bytes.now) }
{
    let (sender, rest) = u8_at(whole, bytes)?;
    let (epoch, rest) = epoch_at(whole, 10, rest)?;
    let (round, rest) = u32_at(whole, rest)?;
    let (total, rest) = u32_at(whole, rest)?;
    let (count, rest) = u32_at(whole, rest)?;
    if count > 16665 {
        return Err(EntryFault::BadField { at: 26 });
    }
    let (deltas, rest) = deltas_of(alloc, whole, count, rest)?;
    if !rest.is_empty() {
        return Err(EntryFault::Trailing {
            at: 30 + 36 * count as u64,
        });
    }
    Ok(Entry::Got {
        sender,
        epoch,
        round,
        total,
        deltas,
    })
}
