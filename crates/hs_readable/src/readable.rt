//! Whether an entry may stand on a disk.
ghost use Rattle.std.specs.Prelude.{◌≡◌, ◌&&◌, All, IsTrue, None, length, nat_le, true};
ghost use Rattle.hs_readable.specs.Ascending.{are_ascending};
ghost use Rattle.hs_entry.specs.Reading.{AreDeltas, IsDelta, IsReadable, comes_after, is_epoch};

use hs_entry::Entry;
use hs_limits::{Address, Delta, spelt};

/// Whether an entry is within the bounds of its kind, and of a kind that is written so far. It takes
/// no memory.
pub fn is_readable(entry: &Entry) -> bool
    ensures readable { IsTrue result → IsReadable entry.now }
    ensures only { IsReadable entry.now → result ≡ true }
{
    match entry {
        Entry::View { view } => *view >= 1,
        Entry::Block { op, least, bytes } => {
            let _op = *op;
            is_epoch(*least) && spelt(bytes.as_slice())
        }
        Entry::Mark {
            op,
            least,
            block,
            address,
        } => {
            let _op = *op;
            let _block = *block;
            is_whole(*address) && is_epoch(*least)
        }
        Entry::Root {
            op,
            held,
            address,
            key,
        } => {
            let _op = *op;
            let _key = key.as_slice();
            is_whole(*address) && is_epoch(*held)
        }
        Entry::Drop { op, key } => {
            let _op = *op;
            let _key = key.as_slice();
            true
        }
        Entry::Enter { op, epoch } => {
            let _op = *op;
            is_epoch(*epoch)
        }
        Entry::Got {
            sender,
            epoch,
            round,
            total,
            deltas,
        } => {
            let _sender = *sender;
            let _round = *round;
            let _total = *total;
            is_epoch(*epoch) && are_deltas(deltas.as_slice())
        }
        Entry::Base { .. }
        | Entry::KeptBlock { .. }
        | Entry::KeptRoot { .. }
        | Entry::KeptRound { .. } => false,
    }
}

/// Whether an address has 32 bytes, as every address has.
fn is_whole(address: Address) -> bool
    ensures value { result ≡ true }
    ensures whole { length address.0 ≡ 32 }
{
    address.0.len() == 32
}

/// Whether a number is an epoch.
fn is_epoch(epoch: u64) -> bool
    ensures { result ≡ is_epoch epoch }
{
    1 <= epoch && epoch < 1 << 48
}

/// Whether there are no more deltas than an entry has, each of some amount, ascending by address.
#[tactic(auto, using(crate::proofs::DeltaLemmas::ascending_are_deltas, crate::proofs::DeltaLemmas::deltas_are_ascending))]
fn are_deltas(deltas: &[Delta]) -> bool
    ensures deltas { IsTrue result → AreDeltas deltas.now }
    ensures only { AreDeltas deltas.now → result ≡ true }
{
    deltas.len() <= 16_665 && are_ascending(deltas)
}

/// Whether each delta is of some amount, and they ascend by address.
fn are_ascending(deltas: &[Delta]) -> bool
    ensures value { result ≡ are_ascending None deltas.now }
    ensures each { IsTrue result → All IsDelta deltas.now }
{
    let mut last: Option<Address> = None;
    for delta in deltas {
        if !is_next(last, *delta) {
            return false;
        }
        last = Some(delta.address);
    }
    true
}

/// Whether a delta is of some amount, and its address comes after the last one.
fn is_next(last: Option<Address>, delta: Delta) -> bool
    ensures value { result ≡ (nat_le 1 delta.amount && comes_after last delta.address) }
    ensures whole { IsTrue result → IsDelta delta }
{
    let amount = delta.amount;
    is_whole(delta.address) && 1 <= amount && comes_after(last, &delta.address)
}

/// Whether an address comes after the last one.
fn comes_after(last: Option<Address>, address: &Address) -> bool
    ensures { result ≡ comes_after last address.now }
{
    match last {
        None => true,
        Some(last) => last.cmp(address).is_lt(),
    }
}
