//! Which bytes spell a block.
ghost use Rattle.std.specs.Prelude.{◌≡◌, ◌*◌, ◌≤◌, ◌↔◌, length, is_ok, IsTrue, IfOk};
ghost use Rattle.std.specs.Int.{w16, w32};
ghost use Rattle.hs_limits.specs.declared.spelling.SpellingFault.TheVariants.{Short};
ghost use Rattle.hs_limits.specs.Block.{IsSpelling};
ghost use Rattle.hs_limits.specs.Fields.{Gives, byte_at, bytes_at, number_at};
ghost use Rattle.hs_limits.specs.Reading.{addresses, read_block};

use thiserror::Error;

/// The most pointers of a block.
pub const MOST_POINTERS: usize = 64;

/// The most bytes of data of a block.
pub const MOST_BYTES: usize = 65_536;

/// Why bytes spell no block: the first fault in the order of the bytes.
#[derive(Clone, Copy, Debug, PartialEq, Eq, Error)]
pub enum SpellingFault {
    /// The input ends inside a field, at `at`.
    #[error("the block ends inside a field, at byte {at}")]
    Short { at: u64 },
    /// The first byte is not 1.
    #[error("a block begins with 1, not {found}")]
    BadVersion { found: u8 },
    /// More than 64 pointers are announced.
    #[error("a block has at most 64 pointers, not {found}")]
    TooMany { found: u64 },
    /// More than 65,536 bytes are announced.
    #[error("a block has at most 65536 bytes, not {found}")]
    TooLong { found: u64 },
    /// The block ends before the input does: the place of the first byte behind it.
    #[error("the block ends before byte {at}")]
    Trailing { at: u64 },
}

/// Whether the bytes are the spelling of a block. It takes no memory.
pub fn spelt(bytes: &[u8]) -> bool
    ensures exact { IsTrue result ↔ IsSpelling bytes.now }
    ensures value { result ≡ is_ok (read_block bytes.now) }
{
    parts_of(bytes).is_ok()
}

/// Where a spelling has its block: the number of pointers, their bytes, and the block's bytes. It
/// takes no memory.
#[tactic(auto, unfolding(crate::specs::Reading::block_at, crate::specs::Reading::read_block))]
pub fn parts_of(bytes: &[u8]) -> Result<(u16, &[u8], &[u8]), SpellingFault>
    ensures exact { Gives (λ x. record { pointers = addresses x.0 x.1.now; bytes = x.2.now })
        result (read_block bytes.now) }
    ensures few { IfOk result (λ x. x.0 ≤ MOST_POINTERS) }
    ensures whole { IfOk result (λ x. length x.1.now ≡ 32 * x.0) }
    ensures short { IfOk result (λ x. length x.2.now ≤ MOST_BYTES) }
{
    let whole = bytes.len() as u64;
    let (version, rest) = u8_at(whole, bytes)?;
    if version != 1 {
        return Err(SpellingFault::BadVersion { found: version });
    }
    let (count, rest) = u16_at(whole, rest)?;
    if count as usize > MOST_POINTERS {
        return Err(SpellingFault::TooMany {
            found: count as u64,
        });
    }
    let (pointers, rest) = split(whole, rest, 32 * count as usize)?;
    let (len, rest) = u32_at(whole, rest)?;
    if len as usize > MOST_BYTES {
        return Err(SpellingFault::TooLong { found: len as u64 });
    }
    let (content, rest) = split(whole, rest, len as usize)?;
    if !rest.is_empty() {
        return Err(SpellingFault::Trailing {
            at: (bytes.len() - rest.len()) as u64,
        });
    }
    Ok((count, pointers, content))
}

/// The first byte of what is left of an input of `whole` bytes, and what stands behind it.
fn u8_at(whole: u64, bytes: &[u8]) -> Result<(u8, &[u8]), SpellingFault>
    ensures exact { Gives (λ x. (x.0, x.1.now)) result (byte_at (Short whole) bytes.now) }
    ensures fewer { IfOk result (λ x. length x.1.now ≤ length bytes.now) }
{
    match bytes {
        [] => Err(SpellingFault::Short { at: whole }),
        [first, rest @ ..] => Ok((*first, rest)),
    }
}

/// So many bytes of what is left of an input of `whole` bytes, and what stands behind them.
fn split(whole: u64, bytes: &[u8], n: usize) -> Result<(&[u8], &[u8]), SpellingFault>
    ensures exact { Gives (λ x. (x.0.now, x.1.now)) result (bytes_at (Short whole) n bytes.now) }
    ensures fewer { IfOk result (λ x. length x.1.now ≤ length bytes.now) }
{
    if bytes.len() < n {
        return Err(SpellingFault::Short { at: whole });
    }
    Ok(bytes.split_at(n))
}

/// The number of two bytes that comes next.
fn u16_at(whole: u64, bytes: &[u8]) -> Result<(u16, &[u8]), SpellingFault>
    ensures exact { Gives (λ x. (x.0, x.1.now)) result (number_at (Short whole) w16 bytes.now) }
    ensures fewer { IfOk result (λ x. length x.1.now ≤ length bytes.now) }
{
    let (field, rest) = split(whole, bytes, 2)?;
    Ok((u16::from_be_bytes([field[0], field[1]]), rest))
}

/// The number of four bytes that comes next.
fn u32_at(whole: u64, bytes: &[u8]) -> Result<(u32, &[u8]), SpellingFault>
    ensures exact { Gives (λ x. (x.0, x.1.now)) result (number_at (Short whole) w32 bytes.now) }
    ensures fewer { IfOk result (λ x. length x.1.now ≤ length bytes.now) }
{
    let (field, rest) = split(whole, bytes, 4)?;
    let number = u32::from_be_bytes([field[0], field[1], field[2], field[3]]);
    Ok((number, rest))
}
