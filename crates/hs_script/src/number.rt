//! Numbers in decimal digits.
ghost use Rattle.std.specs.Prelude.{◌≡◌, ◌+◌, ◌-◌, ◌*◌, ◌<◌, ◌≤◌, Some, None, if◌then◌else◌, nat_lt, IfSome};
ghost use Rattle.std.specs.List.{list_all};
ghost use Rattle.hs_script.specs.Parts.{handle_of, message_number, number_below, peer_number, is_digit, has_leading_zero, value_of};

/// The handle that a word names: the letter h and a number.
pub(crate) fn handle_of(word: &[u8]) -> Option<u32>
    ensures { result ≡ handle_of word.now }
{
    match word {
        [b'h', digits @ ..] => match number_up_to(u64::from(u32::MAX), digits) {
            Some(number) => Some(number as u32),
            None => None,
        },
        _ => None,
    }
}

/// The number of a peer that a word is.
pub(crate) fn peer_number(word: &[u8]) -> Option<u8>
    ensures { result ≡ peer_number word.now }
{
    match number_up_to(u64::from(u8::MAX), word) {
        Some(number) => Some(number as u8),
        None => None,
    }
}

/// The number of a message that a word is.
pub(crate) fn message_number(word: &[u8]) -> Option<u64>
    ensures { result ≡ message_number word.now }
{
    number_up_to(u64::MAX, word)
}

/// The number that the digits write, where they write one that is not above `most`: digits alone,
/// without a sign or a leading zero. None for all else, however long it is.
#[tactic(auto, unfolding(crate::specs::Parts::number_below))]
pub fn number_up_to(most: u64, digits: &[u8]) -> Option<u64>
    ensures value { result ≡ number_below (most + 1) digits.now }
    ensures bound { IfSome result (λ number. number ≤ most) }
{
    if digits.is_empty() || !are_digits(digits) || has_leading_zero(digits) {
        return None;
    }
    value_up_to(most, digits)
}

/// Whether each byte is a digit.
fn are_digits(bytes: &[u8]) -> bool
    ensures { result ≡ list_all is_digit bytes.now }
{
    bytes.iter().all(|byte| is_digit(*byte))
}

/// Whether the byte is a digit.
fn is_digit(byte: u8) -> bool
    ensures { result ≡ is_digit byte }
{
    byte >= b'0' && byte <= b'9'
}

/// Whether the first digit is a zero before others.
fn has_leading_zero(digits: &[u8]) -> bool
    ensures { result ≡ has_leading_zero digits.now }
{
    match digits {
        [first, _, ..] => *first == b'0',
        _ => false,
    }
}

/// The value of the digits, where it is not above `most`. It stops at the first digit that makes it
/// more.
#[tactic(auto, using(crate::proofs::NumberLemmas::value_more, crate::proofs::NumberLemmas::value_grows))]
fn value_up_to(most: u64, digits: &[u8]) -> Option<u64>
    ensures value { result ≡ (if nat_lt (value_of digits.now) (most + 1)
        then Some (value_of digits.now) else None) }
    ensures bound { IfSome result (λ value. value ≤ most) }
{
    let mut value = 0;
    for digit in digits {
        match more_value(most, value, *digit) {
            Some(more) => value = more,
            None => return None,
        }
    }
    Some(value)
}

/// The value with one digit more, where it is not above `most`.
fn more_value(most: u64, value: u64, digit: u8) -> Option<u64>
    ensures value { result ≡ (if nat_lt (value * 10 + (digit - 48)) (most + 1)
        then Some (value * 10 + (digit - 48)) else None) }
{
    let more = value
        .checked_mul(10)?
        .checked_add(u64::from(digit.saturating_sub(b'0')))?;
    if more > most { None } else { Some(more) }
}
