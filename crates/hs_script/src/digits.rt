//! Hexadecimal digits.
ghost use Rattle.std.specs.Prelude.{◌≡◌, ◌≤◌, ℕ, ◌*◌, length, unwrap_or};
ghost use Rattle.std.specs.List.{list_all};
ghost use Rattle.std.specs.Result.{result_ok};
ghost use Rattle.hex.specs.Hex.{decode_pairs, hex_digit_value, is_hex_digit, pair_value};
ghost use Rattle.hs_script.specs.Giving.{Decodes};

/// The value of each byte as a digit of either case, and 256 of those that are none.
const LOW: [u16; 256] = [
    256, 256, 256, 256, 256, 256, 256, 256, 256, 256, 256, 256, 256, 256, 256, 256, 256, 256, 256,
    256, 256, 256, 256, 256, 256, 256, 256, 256, 256, 256, 256, 256, 256, 256, 256, 256, 256, 256,
    256, 256, 256, 256, 256, 256, 256, 256, 256, 256, 0, 1, 2, 3, 4, 5, 6, 7, 8, 9, 256, 256, 256,
    256, 256, 256, 256, 10, 11, 12, 13, 14, 15, 256, 256, 256, 256, 256, 256, 256, 256, 256, 256,
    256, 256, 256, 256, 256, 256, 256, 256, 256, 256, 256, 256, 256, 256, 256, 256, 10, 11, 12, 13,
    14, 15, 256, 256, 256, 256, 256, 256, 256, 256, 256, 256, 256, 256, 256, 256, 256, 256, 256,
    256, 256, 256, 256, 256, 256, 256, 256, 256, 256, 256, 256, 256, 256, 256, 256, 256, 256, 256,
    256, 256, 256, 256, 256, 256, 256, 256, 256, 256, 256, 256, 256, 256, 256, 256, 256, 256, 256,
    256, 256, 256, 256, 256, 256, 256, 256, 256, 256, 256, 256, 256, 256, 256, 256, 256, 256, 256,
    256, 256, 256, 256, 256, 256, 256, 256, 256, 256, 256, 256, 256, 256, 256, 256, 256, 256, 256,
    256, 256, 256, 256, 256, 256, 256, 256, 256, 256, 256, 256, 256, 256, 256, 256, 256, 256, 256,
    256, 256, 256, 256, 256, 256, 256, 256, 256, 256, 256, 256, 256, 256, 256, 256, 256, 256, 256,
    256, 256, 256, 256, 256, 256, 256, 256, 256, 256, 256, 256, 256, 256, 256, 256, 256, 256, 256,
    256, 256, 256,
];

/// Sixteen times the value of each byte as a digit of either case, and 256 of those that are none.
const HIGH: [u16; 256] = [
    256, 256, 256, 256, 256, 256, 256, 256, 256, 256, 256, 256, 256, 256, 256, 256, 256, 256, 256,
    256, 256, 256, 256, 256, 256, 256, 256, 256, 256, 256, 256, 256, 256, 256, 256, 256, 256, 256,
    256, 256, 256, 256, 256, 256, 256, 256, 256, 256, 0, 16, 32, 48, 64, 80, 96, 112, 128, 144,
    256, 256, 256, 256, 256, 256, 256, 160, 176, 192, 208, 224, 240, 256, 256, 256, 256, 256, 256,
    256, 256, 256, 256, 256, 256, 256, 256, 256, 256, 256, 256, 256, 256, 256, 256, 256, 256, 256,
    256, 160, 176, 192, 208, 224, 240, 256, 256, 256, 256, 256, 256, 256, 256, 256, 256, 256, 256,
    256, 256, 256, 256, 256, 256, 256, 256, 256, 256, 256, 256, 256, 256, 256, 256, 256, 256, 256,
    256, 256, 256, 256, 256, 256, 256, 256, 256, 256, 256, 256, 256, 256, 256, 256, 256, 256, 256,
    256, 256, 256, 256, 256, 256, 256, 256, 256, 256, 256, 256, 256, 256, 256, 256, 256, 256, 256,
    256, 256, 256, 256, 256, 256, 256, 256, 256, 256, 256, 256, 256, 256, 256, 256, 256, 256, 256,
    256, 256, 256, 256, 256, 256, 256, 256, 256, 256, 256, 256, 256, 256, 256, 256, 256, 256, 256,
    256, 256, 256, 256, 256, 256, 256, 256, 256, 256, 256, 256, 256, 256, 256, 256, 256, 256, 256,
    256, 256, 256, 256, 256, 256, 256, 256, 256, 256, 256, 256, 256, 256, 256, 256, 256, 256, 256,
    256, 256, 256, 256, 256, 256, 256, 256,
];

/// Writes the bytes of the digits, two for each. False where a digit is none.
#[tactic(auto, using(crate::proofs::DigitLemmas::decodes_more, crate::proofs::DigitLemmas::decodes_not, crate::proofs::DigitLemmas::decodes_all))]
pub(crate) fn decode(digits: &[u8], bytes: &mut [u8]) -> bool
    requires { length digits.now ≡ 2 * length bytes.old }
    ensures { Decodes result (decode_pairs 0 digits.now) bytes.new }
{
    'pairs: for i in 0..bytes.len() {
        match byte_of(digits[2 * i], digits[2 * i + 1]) {
            Some(byte) => bytes[i] = byte,
            None => return false,
        }
    }
    true
}

/// The byte of two digits, the high one first. Where one is none their sum is above each byte.
#[tactic(auto, using(crate::proofs::DigitLemmas::pair_read, crate::proofs::DigitLemmas::pair_none))]
#[inline]
fn byte_of(high: u8, low: u8) -> Option<u8>
    ensures { (i : ℕ) → result ≡ result_ok (pair_value high low i) }
{
    let sum = high_of(high) + low_of(low);
    if sum > 255 { None } else { Some(sum as u8) }
}

/// Sixteen times the value of a digit of either case, and 256 where the byte is none.
#[tactic(auto, using(crate::proofs::DigitLemmas::value_in_high))]
#[inline]
fn high_of(byte: u8) -> u16
    ensures value { result ≡ unwrap_or (hex_digit_value byte) 16 * 16 }
    ensures most { result ≤ 256 }
{
    HIGH[byte as usize]
}

/// The value of a digit of either case, and 256 where the byte is none.
#[tactic(auto, using(crate::proofs::DigitLemmas::value_in_low))]
#[inline]
fn low_of(byte: u8) -> u16
    ensures value { result ≡ unwrap_or (hex_digit_value byte) 256 }
    ensures most { result ≤ 256 }
{
    LOW[byte as usize]
}

/// Whether each byte is a hexadecimal digit.
pub(crate) fn are_hex_digits(bytes: &[u8]) -> bool
    ensures { result ≡ list_all is_hex_digit bytes.now }
{
    bytes.iter().all(|byte| is_hex_digit(*byte))
}

/// Whether the byte is a hexadecimal digit.
fn is_hex_digit(byte: u8) -> bool
    ensures { result ≡ is_hex_digit byte }
{
    (byte >= b'A' && byte <= b'F')
        || (byte >= b'a' && byte <= b'f')
        || (byte >= b'0' && byte <= b'9')
}
