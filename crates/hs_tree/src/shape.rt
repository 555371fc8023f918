//! What a block has to be in a file's tree.
ghost use Rattle.std.specs.Prelude.{◌≡◌, ◌<◌, ◌^◌, ℕ, IfSome, Some, false, length, min, true};
ghost use Rattle.std.specs.Int.{to_be_bytes, w64};

use crate::sizes::RUN_BYTES;
use hs_limits::MOST_BYTES;

/// How many of the bytes that are left are in the next piece.
pub(crate) fn in_piece(left: u64) -> u64
    ensures { result ≡ min left 65536 }
{
    left.min(MOST_BYTES as u64)
}

/// How many of the bytes that are left are below the next block above a run of pieces.
pub(crate) fn in_run(left: u64) -> u64
    ensures { result ≡ min left 4194304 }
{
    left.min(RUN_BYTES)
}

/// Whether a block is a piece of so many bytes.
pub(crate) fn is_piece(content: &[u8], below: &[u32], part: u64) -> bool
    ensures yes { result ≡ true →
        (0 < part) × (length below.now ≡ 0) × (length content.now ≡ part) }
    ensures no { result ≡ false →
        0 < part → length below.now ≡ 0 → length content.now ≡ part → ⊥ }
{
    part > 0 && below.is_empty() && content.len() as u64 == part
}

/// Whether a block's bytes are those above so many bytes.
pub(crate) fn is_run(content: &[u8], part: u64) -> bool
    ensures yes { result ≡ true → (0 < part) × (content.now ≡ to_be_bytes w64 part) }
    ensures no { result ≡ false → 0 < part → content.now ≡ to_be_bytes w64 part → ⊥ }
{
    part > 0 && content == part.to_be_bytes().as_slice()
}

/// The number that 8 bytes spell, high byte first. None where there are not 8.
pub(crate) fn number_in(bytes: &[u8]) -> Option<u64>
    ensures some { IfSome result (λ n. bytes.now ≡ to_be_bytes w64 n) }
    ensures number { (n : ℕ) → n < 2 ^ 64 → bytes.now ≡ to_be_bytes w64 n → result ≡ Some n }
{
    if bytes.len() != 8 {
        return None;
    }
    Some(u64::from_be_bytes([
        bytes[0], bytes[1], bytes[2], bytes[3], bytes[4], bytes[5], bytes[6], bytes[7],
    ]))
}
