//! The fields of a payload, read one after another. `whole` is the length of the input.
ghost use Rattle.std.specs.Prelude.{◌≡◌, ◌<◌, length, IfOk, Some, IsTrue};
ghost use Rattle.std.specs.Int.{w32, w64};
ghost use Rattle.hs_limits.specs.Fields.{byte_at, bytes_at, number_at};
ghost use Rattle.hs_limits.specs.Key.{is_key};
ghost use Rattle.hs_entry.specs.declared.fault.EntryFault.TheVariants.{Short, NoMemory};
ghost use Rattle.hs_entry.specs.Reading.{IsReading, is_epoch, epoch_at, key_at, comes_after, delta_at, deltas_at};

use crate::EntryFault;
use hs_limits::{Address, Delta, Key, ListOf, is_key};
use std::alloc::Global;

/// The byte that comes next, and what stands behind it.
pub(crate) fn u8_at(whole: u64, bytes: &[u8]) -> Result<(u8, &[u8]), EntryFault>
    ensures { IsReading (λ x. (x.0, x.1.now)) result (byte_at (Short whole) bytes.now) }
{
    match bytes {
        [] => Err(EntryFault::Short { at: whole }),
        [first, rest @ ..] => Ok((*first, rest)),
    }
}

/// So many bytes, and what stands behind them.
fn split(whole: u64, bytes: &[u8], n: usize) -> Result<(&[u8], &[u8]), EntryFault>
    ensures exact { IsReading (λ x. (x.0.now, x.1.now)) result
        (bytes_at (Short whole) n bytes.now) }
    ensures len { IfOk result (λ x. length x.0.now ≡ n) }
{
    if bytes.len() < n {
        return Err(EntryFault::Short { at: whole });
    }
    Ok(bytes.split_at(n))
}

/// The number of four bytes that comes next.
pub(crate) fn u32_at(whole: u64, bytes: &[u8]) -> Result<(u32, &[u8]), EntryFault>
    ensures { IsReading (λ x. (x.0, x.1.now)) result (number_at (Short whole) w32 bytes.now) }
{
    let (field, rest) = split(whole, bytes, 4)?;
    let number = u32::from_be_bytes([field[0], field[1], field[2], field[3]]);
    Ok((number, rest))
}

/// The number of eight bytes that comes next.
pub(crate) fn u64_at(whole: u64, bytes: &[u8]) -> Result<(u64, &[u8]), EntryFault>
    ensures { IsReading (λ x. (x.0, x.1.now)) result (number_at (Short whole) w64 bytes.now) }
{
    let (field, rest) = split(whole, bytes, 8)?;
    let number = u64::from_be_bytes([
        field[0], field[1], field[2], field[3], field[4], field[5], field[6], field[7],
    ]);
    Ok((number, rest))
}

/// Whether this is an epoch.
fn is_epoch(n: u64) -> bool
    ensures { result ≡ is_epoch n }
{
    n >= 1 && n < 0x1_0000_0000_0000
}

/// The epoch that comes next, at this place.
#[tactic(auto, unfolding(crate::specs::Reading::epoch_at))]
pub(crate) fn epoch_at(whole: u64, at: u64, bytes: &[u8]) -> Result<(u64, &[u8]), EntryFault>
    ensures { IsReading (λ x. (x.0, x.1.now)) result (epoch_at whole at bytes.now) }
{
    let (epoch, rest) = u64_at(whole, bytes)?;
    if !is_epoch(epoch) {
        return Err(EntryFault::BadField { at });
    }
    Ok((epoch, rest))
}

/// The address that comes next.
pub(crate) fn address_at(whole: u64, bytes: &[u8]) -> Result<(Address, &[u8]), EntryFault>
    ensures { IsReading (λ x. (x.0.0, x.1.now)) result (bytes_at (Short whole) 32 bytes.now) }
{
    let (field, rest) = split(whole, bytes, 32)?;
    let mut address = Address([0; 32]);
    address.0.copy_from_slice(field);
    Ok((address, rest))
}

/// The bytes of the key that comes next, behind its length at this place.
#[tactic(auto, unfolding(crate::specs::Reading::key_at))]
pub(crate) fn key_at(whole: u64, at: u64, bytes: &[u8]) -> Result<(&[u8], &[u8]), EntryFault>
    requires { at < 64 }
    ensures exact { IsReading (λ x. (x.0.now, x.1.now)) result (key_at whole at bytes.now) }
    ensures valid { IfOk result (λ x. IsTrue (is_key x.0.now)) }
{
    let (len, rest) = u8_at(whole, bytes)?;
    if len < 1 || len > 64 {
        return Err(EntryFault::BadField { at });
    }
    let (key, rest) = split(whole, rest, len as usize)?;
    if !is_key(key) {
        return Err(EntryFault::BadField { at: at + 1 });
    }
    Ok((key, rest))
}

/// The key of these bytes.
pub(crate) fn key_of(alloc: Global, bytes: &[u8]) -> Result<Key, EntryFault>
    requires { IsTrue (is_key bytes.now) }
    ensures { IsReading (λ x. x) result (Ok bytes.now) }
{
    let bytes = ListOf::from_vec(Vec::from_slice(alloc, bytes)?);
    match Key::from_list(bytes) {
        Some(key) => Ok(key),
        None => unreachable!(),
    }
}

/// Whether an address comes after the one before it.
fn comes_after(last: Option<Address>, address: &Address) -> bool
    ensures { result ≡ comes_after last address.now }
{
    match last {
        None => true,
        Some(last) => last.cmp(address).is_lt(),
    }
}

/// The delta that comes next, at this place, behind one of this address.
#[tactic(auto, unfolding(crate::specs::Reading::delta_at))]
fn delta_at(
    whole: u64,
    at: u64,
    last: Option<Address>,
    bytes: &[u8],
) -> Result<(Delta, &[u8]), EntryFault>
    requires { at < 1000000 }
    ensures { IsReading (λ x. (x.0, x.1.now)) result (delta_at whole at last bytes.now) }
{
    let (address, rest) = address_at(whole, bytes)?;
    if !comes_after(last, &address) {
        return Err(EntryFault::BadField { at });
    }
    let (amount, rest) = u32_at(whole, rest)?;
    if amount < 1 {
        return Err(EntryFault::BadField { at: at + 32 });
    }
    Ok((Delta { address, amount }, rest))
}

/// So many deltas that come next, at byte 30.
#[tactic(auto, using(crate::proofs::DeltaLemmas::deltas_at_suc))]
pub(crate) fn deltas_of(
    alloc: Global,
    whole: u64,
    count: u32,
    bytes: &[u8],
) -> Result<(ListOf<Delta>, &[u8]), EntryFault>
    requires { count < 20000 }
    ensures { IsReading (λ x. (x.0, x.1.now)) result (deltas_at whole 30 count None bytes.now) }
{
    let mut deltas = ListOf::new(alloc);
    let mut last = None;
    let mut rest = bytes;
    'deltas: for index in 0..count {
        let (delta, more) = delta_at(whole, 30 + 36 * index as u64, last, rest)?;
        deltas.push(delta)?;
        last = Some(delta.address);
        rest = more;
    }
    Ok((deltas, rest))
}
