//! The line of a write that was done. It is put where it goes to, with no text made apart.
ghost use Rattle.std.specs.Prelude.{◌≡◌, ◌+◌, ◌≤◌, ◌∷◌, ◌++◌, [], codes, length, vec_len, vec_capacity, OnOk, OnErr};
ghost use Rattle.std.specs.Fmt.{decimal};
ghost use Rattle.hs_script.specs.Text.{who_text};

use hs_journal::Who;
use itoa::Buffer;
use std::alloc::AllocError;

/// As many bytes as such a line may have.
const MOST_TEXT: usize = 200;

/// Puts the line of a write at the end of `out`: who asked, these bytes of at most 8, the handle, and
/// the epoch. An error leaves `out` as it was.
pub(crate) fn print_written(
    who: Who,
    word: &[u8],
    handle: u32,
    epoch: u64,
    out: &mut Vec<u8>,
) -> Result<(), AllocError>
    requires { length word.now ≤ 8 }
    ensures ok { OnOk result (out.new.items ≡ out.old.items ++ (who_text who ++ (word.now ++
        (decimal handle ++ (codes " e" ++ (decimal epoch ++ 10 ∷ [])))))) }
    ensures same { OnErr result (out.new.items ≡ out.old.items) }
{
    out.reserve(MOST_TEXT)?;
    put_asker(who, out);
    put_bytes(word, out);
    put_number(handle as u64, out);
    put_bytes(b" e", out);
    put_number(epoch, out);
    put_bytes(b"\n", out);
    Ok(())
}

/// Puts the number of the line at the end of `out`, or a dash. There is room for 40 bytes.
pub(crate) fn put_asker(who: Who, out: &mut Vec<u8>)
    requires { vec_len out.old + 40 ≤ vec_capacity out.old }
    ensures items { out.new.items ≡ out.old.items ++ who_text who }
    ensures len { vec_len out.new ≤ vec_len out.old + 40 }
    ensures capacity { vec_capacity out.old ≤ vec_capacity out.new }
{
    match who {
        Who::Line(number) => put_number(number, out),
        Who::Shard(_) => put_bytes(b"-", out),
        Who::Store => put_bytes(b"-", out),
    }
}

/// Puts a number in decimal digits at the end of `out`. There is room for 40 bytes.
fn put_number(number: u64, out: &mut Vec<u8>)
    requires { vec_len out.old + 40 ≤ vec_capacity out.old }
    ensures items { out.new.items ≡ out.old.items ++ decimal number }
    ensures len { vec_len out.new ≤ vec_len out.old + 40 }
    ensures capacity { vec_capacity out.old ≤ vec_capacity out.new }
{
    let mut digits = Buffer::new();
    put_bytes(digits.format(number).as_bytes(), out);
}

/// Puts bytes at the end of `out`, which has room for them.
#[inline(always)]
fn put_bytes(bytes: &[u8], out: &mut Vec<u8>)
    requires { vec_len out.old + length bytes.now ≤ vec_capacity out.old }
    ensures items { out.new.items ≡ out.old.items ++ bytes.now }
    ensures len { vec_len out.new ≡ vec_len out.old + length bytes.now }
    ensures capacity { vec_capacity out.old ≤ vec_capacity out.new }
{
    out.extend_from_slice(bytes).unwrap();
}
