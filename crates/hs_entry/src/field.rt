//! The fields of a payload, put at the end of a buffer that has room for them.
ghost use Rattle.std.specs.Prelude.{◌≡◌, ◌+◌, ◌*◌, ◌<◌, ◌≤◌, ◌^◌, ◌∷◌, ◌++◌, length, vec_len, vec_capacity, OnOk, OnErr};
ghost use Rattle.hs_entry.specs.Payload.{four, eight, key_field, deltas_field};

use hs_limits::{Delta, Key};
use std::alloc::AllocError;

/// Puts kind and number at the end of `out`, with room behind them for so many bytes more.
pub(crate) fn begin(kind: u8, number: u64, room: usize, out: &mut Vec<u8>) -> Result<(), AllocError>
    requires { room + 9 < 2 ^ 64 }
    ensures ok { OnOk result (out.new.items ≡ out.old.items ++ kind ∷ eight number) }
    ensures room { OnOk result (vec_len out.new + room ≤ vec_capacity out.new) }
    ensures same { OnErr result (out.new.items ≡ out.old.items) }
{
    out.reserve(9 + room)?;
    put(&[kind], out);
    put_eight(number, out);
    Ok(())
}

/// Puts the bytes at the end of `out`, which has room for them.
pub(crate) fn put(bytes: &[u8], out: &mut Vec<u8>)
    requires { vec_len out.old + length bytes.now ≤ vec_capacity out.old }
    ensures items { out.new.items ≡ out.old.items ++ bytes.now }
    ensures len { vec_len out.new ≡ vec_len out.old + length bytes.now }
    ensures capacity { vec_capacity out.old ≤ vec_capacity out.new }
{
    out.extend_from_slice(bytes).unwrap();
}

/// Puts a number of four bytes at the end of `out`, which has room for it.
#[tactic(auto, unfolding(crate::specs::Payload::four))]
pub(crate) fn put_four(n: u32, out: &mut Vec<u8>)
    requires { vec_len out.old + 4 ≤ vec_capacity out.old }
    ensures items { out.new.items ≡ out.old.items ++ four n }
    ensures len { vec_len out.new ≡ vec_len out.old + 4 }
    ensures capacity { vec_capacity out.old ≤ vec_capacity out.new }
{
    put(&n.to_be_bytes(), out);
}

/// Puts a number of eight bytes at the end of `out`, which has room for it.
#[tactic(auto, unfolding(crate::specs::Payload::eight))]
pub(crate) fn put_eight(n: u64, out: &mut Vec<u8>)
    requires { vec_len out.old + 8 ≤ vec_capacity out.old }
    ensures items { out.new.items ≡ out.old.items ++ eight n }
    ensures len { vec_len out.new ≡ vec_len out.old + 8 }
    ensures capacity { vec_capacity out.old ≤ vec_capacity out.new }
{
    put(&n.to_be_bytes(), out);
}

/// Puts a key behind its length at the end of `out`, which has room for both.
pub(crate) fn put_key(key: &Key, out: &mut Vec<u8>)
    requires { vec_len out.old + 65 ≤ vec_capacity out.old }
    ensures items { out.new.items ≡ out.old.items ++ key_field key.now }
    ensures len { vec_len out.new ≡ vec_len out.old + (length key.now + 1) }
    ensures capacity { vec_capacity out.old ≤ vec_capacity out.new }
{
    let bytes = key.as_slice();
    put(&[bytes.len() as u8], out);
    put(bytes, out);
}

/// Puts the deltas behind their number at the end of `out`, which has room for all.
pub(crate) fn put_deltas(deltas: &[Delta], out: &mut Vec<u8>)
    requires few { length deltas.now ≤ 16665 }
    requires room { vec_len out.old + (4 + 36 * length deltas.now) ≤ vec_capacity out.old }
    ensures items { out.new.items ≡ out.old.items ++ deltas_field deltas.now }
{
    put_four(deltas.len() as u32, out);
    for delta in deltas {
        put(&delta.address.0, out);
        put_four(delta.amount, out);
    }
}
