//! Reading one frame of a side.
ghost use Rattle.hs_ports.specs.declared.disk.Side.{Side};
ghost use Rattle.std.specs.Prelude.{◌≡◌, ◌<◌, ◌≤◌, ◌+◌, ◌++◌, ℕ, length, drop, IfOk, IfSome, OnOk, OnErr, IfErr, None, Some, ◌==◌, if◌then◌else◌};
ghost use Rattle.std.specs.Int.{w32, from_be_bytes, to_be_bytes};
ghost use Rattle.hs_side.specs.Caused.{IsCalm, IsCaused};
ghost use Rattle.hs_side.specs.Steps.{IsGate, IsLength, IsPayload, IsNext, IsFrame, refusal};

use crate::SideFault;
use crate::format::is_open;
use crate::reading::{fill, gate_at};
use hs_entry::{EntryFault, Rank, read_rank};
use hs_ports::{Disk, Side};
use std::alloc::Global;

/// The most bytes of a payload.
pub const MOST_PAYLOAD: u32 = 600_000;

/// Whether the gate at a place is open.
pub(crate) fn open_at<D: Disk>(
    disk: &mut D,
    side: Side,
    size: u64,
    at: u64,
    held: &mut Vec<u8>,
) -> Result<bool, SideFault>
    requires { size ≡ D.size disk.old side }

    ensures exact { D.tells → IsGate result at ((D.stands disk.old).seen side) }
    ensures inside { OnOk result (at < size) }

    ensures same_size { (s : Side) → D.size disk.new s ≡ D.size disk.old s }
    ensures same { D.tells → D.stands disk.new ≡ D.stands disk.old }
    ensures calm { IsCalm (D.faults disk.old) (D.faults disk.new) result }
    ensures cause { IsCaused (D.faults disk.old) (D.faults disk.new) result }
{
    if at >= size {
        return Err(SideFault::NotALog { at });
    }
    let gate = gate_at(disk, side, at, held)?;
    Ok(is_open(gate))
}

/// The number of four bytes.
fn length_of(bytes: &[u8]) -> u32
    requires { length bytes.now ≡ 4 }
    ensures value { result ≡ from_be_bytes w32 bytes.now }
    ensures back { to_be_bytes w32 result ≡ bytes.now }
{
    u32::from_be_bytes([bytes[0], bytes[1], bytes[2], bytes[3]])
}

/// The length of the payload behind the gate at a place, all of which the side has. It is read
/// behind what is held, which stays.
fn len_at<D: Disk>(
    disk: &mut D,
    side: Side,
    size: u64,
    at: u64,
    held: &mut Vec<u8>,
) -> Result<usize, SideFault>
    requires size { size ≡ D.size disk.old side }
    requires inside { at < size }

    ensures exact { D.tells → IsLength result at ((D.stands disk.old).seen side) }
    ensures short { IfOk result (λ len. len ≤ MOST_PAYLOAD) }
    ensures within { IfOk result (λ len. at + 5 + len ≤ size) }
    ensures held { held.new.items ≡ held.old.items }

    ensures same_size { (s : Side) → D.size disk.new s ≡ D.size disk.old s }
    ensures same { D.tells → D.stands disk.new ≡ D.stands disk.old }
    ensures calm { IsCalm (D.faults disk.old) (D.faults disk.new) result }
    ensures cause { IsCaused (D.faults disk.old) (D.faults disk.new) result }
{
    if size - at < 5 {
        return Err(SideFault::NotALog { at });
    }
    let was = held.len();
    fill(disk, side, at + 1, 4, held)?;
    let len = length_of(&held[was..]);
    held.truncate(was);
    if len > MOST_PAYLOAD {
        return Err(SideFault::NotALog { at });
    }
    if size - at - 5 < len as u64 {
        return Err(SideFault::NotALog { at });
    }
    Ok(len as usize)
}

/// Appends the payload behind the gate at a place to `held`. An error leaves `held` as it was.
pub(crate) fn read_payload<D: Disk>(
    disk: &mut D,
    side: Side,
    size: u64,
    at: u64,
    held: &mut Vec<u8>,
) -> Result<(), SideFault>
    requires size { size ≡ D.size disk.old side }
    requires inside { at < size }

    ensures exact { D.tells → IsPayload result at ((D.stands disk.old).seen side)
        (drop (length held.old.items) held.new.items) }
    ensures more { OnOk result (held.new.items
        ≡ held.old.items ++ drop (length held.old.items) held.new.items) }
    ensures untaken { OnErr result (held.new.items ≡ held.old.items) }
    ensures short { OnOk result (
        length held.new.items ≤ length held.old.items + MOST_PAYLOAD) }
    ensures within { OnOk result (
        at + 5 + length held.new.items ≤ size + length held.old.items) }

    ensures same_size { (s : Side) → D.size disk.new s ≡ D.size disk.old s }
    ensures same { D.tells → D.stands disk.new ≡ D.stands disk.old }
    ensures calm { IsCalm (D.faults disk.old) (D.faults disk.new) result }
    ensures cause { IsCaused (D.faults disk.old) (D.faults disk.new) result }
{
    let len = match len_at(disk, side, size, at, held) {
        Ok(len) => len,
        Err(fault) => return Err(fault),
    };
    fill(disk, side, at + 5, len, held)?;
    Ok(())
}

/// The rank with the entry that a payload is, where it is one that may come behind ordinary entries
/// of the rank `last`, or first where its number is 0. Only ordinary entries are read so far.
fn next_rank(alloc: Global, last: Rank, payload: &[u8]) -> Result<Option<Rank>, SideFault>
    ensures exact { IfOk result (λ rank. IsNext rank last payload.now) }
    ensures above { IfOk result (λ rank. IfSome rank (λ next. next.number ≡ last.number + 1)) }
    ensures memory { IfErr result (λ fault. fault ≡ SideFault.NoMemory) }
{
    let rank = match read_rank(alloc, last, payload) {
        Ok(rank) => rank,
        Err(fault) => return refused(fault),
    };
    Ok(follows(last.number, rank))
}

/// What a payload that is not read is: no entry, unless memory ran out.
fn refused(fault: EntryFault) -> Result<Option<Rank>, SideFault>
    ensures { result ≡ refusal fault }
{
    match fault {
        EntryFault::NoMemory => Err(SideFault::NoMemory),
        _ => Ok(None),
    }
}

/// This rank, where its number is one above the last.
fn follows(last: u64, rank: Rank) -> Option<Rank>
    ensures { result ≡ (if rank.number == last + 1 then Some rank else None) }
{
    if rank.number > 0 && rank.number - 1 == last {
        Some(rank)
    } else {
        None
    }
}

/// Reads the frame at a place whose gate is open, behind ordinary entries of the rank `last`, or at
/// first, where its number is 0. Its payload is put into `held`; the rank with it is the answer.
pub(crate) fn read_frame<D: Disk>(
    alloc: Global,
    disk: &mut D,
    side: Side,
    size: u64,
    at: u64,
    last: Rank,
    held: &mut Vec<u8>,
) -> Result<Rank, SideFault>
    requires size { size ≡ D.size disk.old side }
    requires inside { at < size }

    ensures exact { D.tells →
        IsFrame result at last ((D.stands disk.old).seen side) held.new.items }
    ensures above { IfOk result (λ rank. rank.number ≡ last.number + 1) }
    ensures short { OnOk result (length held.new.items ≤ MOST_PAYLOAD) }
    ensures within { OnOk result (at + 5 + length held.new.items ≤ size) }

    ensures same_size { (s : Side) → D.size disk.new s ≡ D.size disk.old s }
    ensures same { D.tells → D.stands disk.new ≡ D.stands disk.old }
    ensures calm { IsCalm (D.faults disk.old) (D.faults disk.new) result }
    ensures cause { IsCaused (D.faults disk.old) (D.faults disk.new) result }
{
    held.clear();
    match read_payload(disk, side, size, at, held) {
        Ok(()) => {}
        Err(fault) => return Err(fault),
    }
    match next_rank(alloc, last, held) {
        Ok(Some(rank)) => Ok(rank),
        Ok(None) => Err(SideFault::NotALog { at }),
        Err(fault) => Err(fault),
    }
}
