//! A block, and its one spelling.
ghost use Rattle.std.specs.Prelude.{◌≡◌, ℕ, List, [], ◌∷◌, Ok, ◌+◌, ◌*◌, ◌<◌, ◌≤◌, ◌++◌, length, vec_len, vec_capacity, IfOk, OnOk, OnErr, IfErr, IsErrOf, IsOkUnless};
ghost use Rattle.std.specs.Int.{to_be_bytes, w16, w32};
ghost use Rattle.std.specs.List.{flat_map};
ghost use Rattle.hs_limits.specs.Block.{Block, IsBlock, HasAddresses, spell};
ghost use Rattle.hs_limits.specs.Reading.{addresses, read_block};
ghost use Rattle.hs_block.specs.Refusal.{IsCause, IsReading};

use crate::BlockFault;
use hs_limits::{Address, ListOf, MOST_BYTES, MOST_POINTERS, parts_of};
use std::alloc::{AllocError, Global};
use std::marker::Model;

/// Pointers to blocks, and bytes: at most 64 pointers and 65,536 bytes.
#[derive(Debug, Drop)]
pub struct Block {
    pointers: ListOf<Address>,
    bytes: ListOf<u8>,
}

impl Model for Block {
    ghost use Rattle.hs_limits.specs.Block.{Block, IsBlock};

    ghost Value = { Block };

    ghost view = { λ a. record { pointers = a.pointers; bytes = a.bytes } };

    ghost invariant = { λ a. IsBlock (record { pointers = a.pointers; bytes = a.bytes }) };
}

impl Block {
    /// The block of these pointers and bytes. It copies both.
    pub fn make(alloc: Global, pointers: &[Address], bytes: &[u8]) -> Result<Block, BlockFault>
        ensures ok { IfOk result (λ block.
            block ≡ record { pointers = pointers.now; bytes = bytes.now }) }
        ensures valid { IfOk result IsBlock }

        // Too many pointers come before too many bytes.
        ensures too_many { MOST_POINTERS < length pointers.now →
            IsErrOf result (BlockFault.TooMany (length pointers.now)) }
        ensures too_long { length pointers.now ≤ MOST_POINTERS → MOST_BYTES < length bytes.now →
            IsErrOf result (BlockFault.TooLong (length bytes.now)) }
        ensures cause { IfErr result (λ fault. IsCause fault pointers.now bytes.now) }
    {
        if pointers.len() > MOST_POINTERS {
            return Err(BlockFault::TooMany {
                found: pointers.len() as u64,
            });
        }
        if bytes.len() > MOST_BYTES {
            return Err(BlockFault::TooLong {
                found: bytes.len() as u64,
            });
        }
        Ok(Block {
            pointers: ListOf::from_vec(Vec::from_slice(alloc, pointers)?),
            bytes: ListOf::from_vec(Vec::from_slice(alloc, bytes)?),
        })
    }

    /// The block that the bytes spell, all of them. It copies pointers and bytes.
    pub fn read(alloc: Global, bytes: &[u8]) -> Result<Block, BlockFault>
        // What is read is spelled so.
        ensures found { IfOk result (λ block.
            IsBlock block × HasAddresses block × (bytes.now ≡ spell block)) }
        // What is spelled so is read, unless memory runs out.
        ensures only { (block : Block) → IsBlock block → HasAddresses block →
            bytes.now ≡ spell block → IsReading result (Ok block) }
        // Which fault it is: the first in the order of the bytes.
        ensures exact { IsReading result (read_block bytes.now) }
    {
        block_of(alloc, bytes)
    }

    /// The pointers, in order.
    pub fn pointers(&self) -> &[Address]
        ensures value { result.now ≡ self.now.pointers }
        ensures valid { IsBlock self.now }
    {
        self.pointers.as_slice()
    }

    /// The bytes.
    pub fn data(&self) -> &[u8]
        ensures value { result.now ≡ self.now.bytes }
        ensures valid { IsBlock self.now }
    {
        self.bytes.as_slice()
    }

    /// Puts the block's spelling at the end of `out`. An error leaves `out` as it was.
    pub fn write(&self, out: &mut Vec<u8>) -> Result<(), BlockFault>
        ensures ok { OnOk result (out.new.items ≡ out.old.items ++ spell self.now) }
        ensures err { IsOkUnless result BlockFault.NoMemory }
        ensures same { OnErr result (out.new.items ≡ out.old.items) }
    {
        write_spelling(self.pointers.as_slice(), self.bytes.as_slice(), out)
    }
}

/// Puts the spelling of the block of these pointers and bytes at the end of `out`, with no block
/// made. An error leaves `out` as it was.
pub fn write_spelling(
    pointers: &[Address],
    bytes: &[u8],
    out: &mut Vec<u8>,
) -> Result<(), BlockFault>
    requires { IsBlock (record { pointers = pointers.now; bytes = bytes.now }) }
    ensures ok { OnOk result (out.new.items ≡
        out.old.items ++ spell (record { pointers = pointers.now; bytes = bytes.now })) }
    ensures err { IsOkUnless result BlockFault.NoMemory }
    ensures same { OnErr result (out.new.items ≡ out.old.items) }
{
    out.reserve(7 + 32 * pointers.len() + bytes.len())?;
    put_head(pointers, bytes.len(), out);
    out.extend_from_slice(bytes).unwrap();
    Ok(())
}

/// Puts at the end of `out` what a block's spelling has in front of its bytes, at most 2,055 bytes:
/// the block has these pointers and `len` bytes. An error leaves `out` as it was.
pub fn write_head(pointers: &[Address], len: usize, out: &mut Vec<u8>) -> Result<(), BlockFault>
    requires few { length pointers.now ≤ MOST_POINTERS }
    requires short { len ≤ MOST_BYTES }
    ensures ok { OnOk result ((bytes : List ℕ) → length bytes ≡ len → out.new.items ++ bytes
        ≡ out.old.items ++ spell (record { pointers = pointers.now; bytes = bytes })) }
    ensures err { IsOkUnless result BlockFault.NoMemory }
    ensures same { OnErr result (out.new.items ≡ out.old.items) }
{
    out.reserve(7 + 32 * pointers.len())?;
    put_head(pointers, len, out);
    Ok(())
}

/// Puts the head of a spelling at the end of `out`, which has room for it.
fn put_head(pointers: &[Address], len: usize, out: &mut Vec<u8>)
    requires few { length pointers.now ≤ MOST_POINTERS }
    requires short { len ≤ MOST_BYTES }
    requires room { vec_len out.old + (7 + 32 * length pointers.now) ≤ vec_capacity out.old }
    ensures items { out.new.items ≡ out.old.items ++ 1 ∷ to_be_bytes w16 (length pointers.now)
        ++ flat_map (λ pointer. pointer.0) pointers.now ++ to_be_bytes w32 len }
    ensures len { vec_len out.new ≡ vec_len out.old + (7 + 32 * length pointers.now) }
    ensures capacity { vec_capacity out.old ≤ vec_capacity out.new }
{
    out.push(1).unwrap();
    out.extend_from_slice(&(pointers.len() as u16).to_be_bytes())
        .unwrap();
    write_pointers(pointers, out);
    out.extend_from_slice(&(len as u32).to_be_bytes()).unwrap();
}

/// Puts the pointers at the end of `out`, which has room for them.
fn write_pointers(pointers: &[Address], out: &mut Vec<u8>)
    requires { vec_len out.old + 32 * length pointers.now ≤ vec_capacity out.old }
    ensures items { out.new.items ≡
        out.old.items ++ flat_map (λ pointer. pointer.0) pointers.now }
    ensures len { vec_len out.new ≡ vec_len out.old + 32 * length pointers.now }
    ensures capacity { vec_capacity out.old ≤ vec_capacity out.new }
{
    for pointer in pointers {
        out.extend_from_slice(&pointer.0).unwrap();
    }
}

/// The block that the bytes spell, or the first fault.
fn block_of(alloc: Global, bytes: &[u8]) -> Result<Block, BlockFault>
    ensures { IsReading result (read_block bytes.now) }
{
    let (count, pointers, content) = parts_of(bytes)?;
    let pointers = ListOf::from_vec(addresses_of(alloc, count, pointers)?);
    let bytes = ListOf::from_vec(Vec::from_slice(alloc, content)?);
    Ok(Block { pointers, bytes })
}

/// As many addresses as the bytes hold, 32 bytes each.
fn addresses_of(alloc: Global, count: u16, bytes: &[u8]) -> Result<Vec<Address>, AllocError>
    requires { length bytes.now ≡ 32 * count }
    ensures { IfOk result (λ pointers. pointers.items ≡ addresses count bytes.now) }
{
    let mut pointers = Vec::with_capacity(alloc, count as usize)?;
    let mut rest = bytes;
    for _ in 0..count {
        let (front, behind) = rest.split_at(32);
        let mut address = Address([0; 32]);
        address.0.copy_from_slice(front);
        pointers.push(address)?;
        rest = behind;
    }
    Ok(pointers)
}

/// No spelling of a block is the beginning of another block's spelling.
pub fn no_spelling_begins_another()
    ensures { (a : Block) (b : Block) (rest : List ℕ) →
        IsBlock a → HasAddresses a → IsBlock b → HasAddresses b →
        spell b ≡ spell a ++ rest → (a ≡ b) × (rest ≡ []) }
{}
