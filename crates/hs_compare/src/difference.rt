//! The first line of two texts that differs.
use crate::fits::fits_line;
use crate::judge::Known;
use crate::text::Text;

/// How many bytes of a line are shown.
const MOST_SHOWN: usize = 100;

/// A line that is not as wanted: its number, the one that is wanted, and the one that came.
#[derive(Clone, Copy)]
pub(crate) struct Difference<'a> {
    number: u64,
    wanted: Option<&'a [u8]>,
    came: Option<&'a [u8]>,
}

/// The first line of a text that is not as wanted. In the wanted text `[any]` stands for any number,
/// `[A..B]` for one from A to B, `[=]` for the one of the bracket before in its line, `[new+K]` for
/// one from K more than the blocks that were answered as new to K more than those that were begun,
/// and `[call-K]` for K less than the number of the call that fails. A line behind `[?]` may be
/// missing. Other brackets stand for themselves.
pub(crate) fn difference_of<'a>(
    wanted: &[&'a [u8]],
    came: &[&'a [u8]],
    known: Known,
) -> Option<Difference<'a>> {
    let mut number = 1u64;
    let mut rest = came;
    for line in wanted {
        let behind_mark = line.strip_prefix(b"[?]".as_slice());
        match rest {
            [next, behind @ ..] if fits_line(behind_mark.unwrap_or(line), next, known) => {
                number = number.saturating_add(1);
                rest = behind;
            }
            _ if behind_mark.is_some() => {}
            _ => {
                return Some(Difference {
                    number,
                    wanted: Some(*line),
                    came: rest.first().copied(),
                });
            }
        }
    }
    let came = *rest.first()?;
    Some(Difference {
        number,
        wanted: None,
        came: Some(came),
    })
}

impl Difference<'_> {
    /// Puts the number of the line, the one that is wanted, and the one that came.
    pub(crate) fn put(&self, out: &mut Text) {
        out.put_form(" #: wanted ", &[self.number]);
        put_line(self.wanted, out);
        out.put(", came ");
        put_line(self.came, out);
    }
}

/// Puts a line in quotes, or that there is none.
fn put_line(line: Option<&[u8]>, out: &mut Text) {
    match line {
        None => out.put("no line"),
        Some(line) => {
            let front = line.get(..MOST_SHOWN).unwrap_or(line);
            out.put_named("`", front);
            out.put(if front.len() < line.len() { "..`" } else { "`" });
        }
    }
}
