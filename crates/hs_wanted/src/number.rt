//! Numbers from a least to a most.
ghost use Rattle.std.specs.Prelude.{◌≡◌, IfSome};
ghost use Rattle.hs_script.specs.CommandLine.{number_between};
ghost use Rattle.hs_wanted.specs.Asked.{IsBetween};

use hs_script::number_up_to;

/// The number from `least` to `most` that a word writes.
pub(crate) fn long_between(least: u64, most: u64, word: &[u8]) -> Option<u64>
    ensures exact { result ≡ number_between least most word.now }
    ensures bounds { IfSome result (IsBetween least most) }
{
    match number_up_to(most, word) {
        Some(number) => { if number < least { None } else { Some(number) } }
        None => None,
    }
}

/// The same of smaller numbers.
pub(crate) fn number_between(least: u32, most: u32, word: &[u8]) -> Option<u32>
    ensures exact { result ≡ number_between least most word.now }
    ensures bounds { IfSome result (IsBetween least most) }
{
    match number_up_to(u64::from(most), word) {
        Some(number) => {
            if number < u64::from(least) {
                None
            } else {
                Some(number as u32)
            }
        }
        None => None,
    }
}

/// The same of numbers of one byte.
pub(crate) fn small_between(least: u8, most: u8, word: &[u8]) -> Option<u8>
    ensures exact { result ≡ number_between least most word.now }
    ensures bounds { IfSome result (IsBetween least most) }
{
    match number_up_to(u64::from(most), word) {
        Some(number) => {
            if number < u64::from(least) {
                None
            } else {
                Some(number as u8)
            }
        }
        None => None,
    }
}
