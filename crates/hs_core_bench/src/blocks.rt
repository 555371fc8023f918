//! Blocks, and names of sessions, by number; and a key.
use hs_limits::{Address, Key, ListOf, Name};
use hs_shared::SharedBytes;
use std::alloc::{AllocError, Global};

/// The four bytes of data of a block.
pub fn data(alloc: Global, block: u32) -> Result<ListOf<u8>, AllocError> {
    let mut bytes = Vec::with_capacity(alloc, 4)?;
    bytes.extend_from_slice(&block.to_be_bytes())?;
    Ok(ListOf::from_vec(bytes))
}

/// The spelling of a block without pointers and with that data.
pub fn spelling(alloc: Global, block: u32) -> Result<SharedBytes, AllocError> {
    let mut bytes = Vec::with_capacity(alloc, 11)?;
    let [a, b, c, d] = block.to_be_bytes();
    bytes.extend_from_slice(&[1, 0, 0, 0, 0, 0, 4, a, b, c, d])?;
    SharedBytes::from_vec(alloc, bytes)
}

/// Its address: the number, zeros, and 1, so that it is of the shard in which nothing rests. No naming
/// is measured.
pub fn address_of(block: u32) -> Address {
    let mut address = [0; 32];
    let [a, b, c, d] = block.to_be_bytes();
    address[0] = a;
    address[1] = b;
    address[2] = c;
    address[3] = d;
    address[31] = 1;
    Address(address)
}

/// The session of a number: `s` and six digits.
pub fn session(alloc: Global, number: u32) -> Result<Option<Name>, AllocError> {
    let mut bytes = Vec::with_capacity(alloc, 7)?;
    bytes.extend_from_slice(&spelled(number))?;
    Ok(Name::from_list(ListOf::from_vec(bytes)))
}

/// `s` and the last six digits of a number.
fn spelled(number: u32) -> [u8; 7] {
    [
        b's',
        digit(number / 100_000),
        digit(number / 10_000),
        digit(number / 1_000),
        digit(number / 100),
        digit(number / 10),
        digit(number),
    ]
}

/// The last digit of a number.
fn digit(number: u32) -> u8 {
    b'0' + (number % 10) as u8
}

/// A key of the shard in which operations rest, by its last byte.
pub fn key(alloc: Global) -> Result<Option<Key>, AllocError> {
    let mut bytes = Vec::with_capacity(alloc, 2)?;
    bytes.extend_from_slice(b"r0")?;
    Ok(Key::from_list(ListOf::from_vec(bytes)))
}
