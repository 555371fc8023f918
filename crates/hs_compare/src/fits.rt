//! Whether a line is as wanted.
use crate::judge::Known;
use hs_casebook::{is, number_of, range_of, split_once};

/// What is left of a line and of the one that is wanted, and the number of the bracket before.
#[derive(Clone, Copy)]
struct Place<'a> {
    wanted: &'a [u8],
    came: &'a [u8],
    before: u64,
}

/// Whether a line is as wanted, where brackets stand for numbers.
pub(crate) fn fits_line<'a>(wanted: &'a [u8], came: &'a [u8], known: Known) -> bool {
    let mut place = Place {
        wanted,
        came,
        before: 0,
    };
    for _ in 0..wanted.len() {
        let Some((plain, behind)) = split_once(place.wanted, b'[') else {
            break;
        };
        match behind_bracket(place, plain, behind, known) {
            Some(next) => place = next,
            None => return false,
        }
    }
    place.came == place.wanted
}

/// What is left behind a plain text and a bracket.
fn behind_bracket<'a>(
    place: Place<'a>,
    plain: &[u8],
    behind: &'a [u8],
    known: Known,
) -> Option<Place<'a>> {
    let came = place.came.strip_prefix(plain)?;
    if let Some((inner, wanted)) = split_once(behind, b']') {
        if let Some(bounds) = bounds_of(inner, known, place.before) {
            let (before, came) = split_number(bounds, came)?;
            return Some(Place {
                wanted,
                came,
                before,
            });
        }
    }
    Some(Place {
        wanted: behind,
        came: came.strip_prefix(b"[".as_slice())?,
        before: place.before,
    })
}

/// A number, which has to be within bounds, and what stands behind it.
fn split_number(bounds: (u64, u64), came: &[u8]) -> Option<(u64, &[u8])> {
    let (digits, behind) = split_digits(came);
    let number = number_of(digits)?;
    if number < bounds.0 || bounds.1 < number {
        return None;
    }
    Some((number, behind))
}

/// The digits at the front, and what stands behind them.
fn split_digits(text: &[u8]) -> (&[u8], &[u8]) {
    for end in 0..text.len() {
        if !text[end].is_ascii_digit() {
            return text.split_at(end);
        }
    }
    (text, &[])
}

/// The least and the greatest number that a bracket stands for.
fn bounds_of(inner: &[u8], known: Known, before: u64) -> Option<(u64, u64)> {
    if is(inner, "any") {
        return Some((0, u64::MAX));
    }
    if is(inner, "=") {
        return Some((before, before));
    }
    if let Some(digits) = inner.strip_prefix(b"new+".as_slice()) {
        return new_bounds(number_of(digits)?, known);
    }
    if let Some(digits) = inner.strip_prefix(b"call-".as_slice()) {
        let number = known.call.checked_sub(number_of(digits)?)?;
        return Some((number, number));
    }
    range_of(inner)
}

/// So much more than what was answered, and than what was begun.
fn new_bounds(more: u64, known: Known) -> Option<(u64, u64)> {
    let least = known.answered.saturating_add(more);
    Some((least, known.begun.saturating_add(more)))
}
