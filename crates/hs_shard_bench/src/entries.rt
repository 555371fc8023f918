//! What the entries of the shard's log are made of.
use crate::plan::{Plan, address_of};
use hs_limits::{Key, ListOf};
use hs_shared::SharedBytes;
use std::alloc::{AllocError, Global};

/// The spelling of a block of the plan. Its data is its number.
pub fn spelling(alloc: Global, plan: Plan, block: u32) -> Result<SharedBytes, AllocError> {
    let mut bytes = Vec::with_capacity(alloc, 2_063)?;
    put_pointers(&mut bytes, plan, block)?;
    let [a, b, c, d] = block.to_be_bytes();
    bytes.extend_from_slice(&[0, 0, 0, 4, a, b, c, d])?;
    SharedBytes::from_vec(alloc, bytes)
}

/// Appends what comes before the data: the format, and the pointers with their number.
fn put_pointers(bytes: &mut Vec<u8>, plan: Plan, block: u32) -> Result<(), AllocError> {
    let count = plan.pointers(block);
    bytes.extend_from_slice(&[1, 0, count.min(64) as u8])?;
    for place in 0..count {
        bytes.extend_from_slice(&address_of(plan.target(block, place)).0)?;
    }
    Ok(())
}

/// A key of six digits.
pub fn key_of(alloc: Global, number: u32) -> Result<Option<Key>, AllocError> {
    let mut bytes = Vec::with_capacity(alloc, 6)?;
    bytes.extend_from_slice(&digits(number))?;
    Ok(Key::from_list(ListOf::from_vec(bytes)))
}

/// The last six digits of a number.
fn digits(number: u32) -> [u8; 6] {
    [
        digit(number / 100_000),
        digit(number / 10_000),
        digit(number / 1_000),
        digit(number / 100),
        digit(number / 10),
        digit(number),
    ]
}

/// The last digit of a number.
fn digit(number: u32) -> u8 {
    b'0' + (number % 10) as u8
}
