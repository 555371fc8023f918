//! What a scrub prints.
ghost use Rattle.std.specs.Prelude.{◌≡◌, ◌++◌, ◌≤◌, count_by, not, slice_index_or, IsOkUnless, OnOk};
ghost use Rattle.std.specs.List.{enumerate_from, flat_map};
ghost use Rattle.hs_scrub.specs.declared.fault.ScrubFault.TheVariants.{NoMemory};
ghost use Rattle.hs_scrub.specs.Text.{bad_of, end_text, is_same, line_of, lines_of, mark_text, scrub_text};

use crate::{PeerMark, ScrubFault};
use std::io;
use std::io::Write;

/// Puts the text of a scrub at the end of `out`: a line for each peer, and the last one. `lengths` has
/// by shard the number of the last entry of its taken log, and `copies` are those of a shard.
pub(crate) fn put_text(
    copies: u8,
    lengths: &[u64],
    marks: &[PeerMark],
    out: &mut Vec<u8>,
) -> Result<(), ScrubFault>
    requires { 1 ≤ copies }
    ensures ok { OnOk result (out.new.items
        ≡ out.old.items ++ scrub_text copies lengths.now marks.now) }
    ensures err { IsOkUnless result NoMemory }
{
    match put_all(copies, lengths, marks, out) {
        Ok(()) => Ok(()),
        Err(_) => Err(ScrubFault::NoMemory),
    }
}

/// Puts the lines of the peers at the end of `out`, and the last one.
fn put_all(copies: u8, lengths: &[u64], marks: &[PeerMark], out: &mut Vec<u8>) -> io::Result<()>
    requires { 1 ≤ copies }
    ensures { OnOk result (out.new.items
        ≡ out.old.items ++ scrub_text copies lengths.now marks.now) }
{
    put_lines(copies, lengths, marks, out)?;
    put_end(bad_of(marks), out)
}

/// Puts the line of each peer at the end of `out`.
fn put_lines(copies: u8, lengths: &[u64], marks: &[PeerMark], out: &mut Vec<u8>) -> io::Result<()>
    requires { 1 ≤ copies }
    ensures { OnOk result (out.new.items
        ≡ out.old.items ++ lines_of copies lengths.now marks.now) }
{
    for (peer, mark) in marks.iter().enumerate() {
        let length = length_at(lengths, peer / usize::from(copies));
        put_line(length, peer, *mark, out)?;
    }
    Ok(())
}

/// The length of the log that was taken of a shard, 0 where there is none.
fn length_at(lengths: &[u64], shard: usize) -> u64
    ensures { result ≡ slice_index_or lengths.now shard 0 }
{
    match lengths.get(shard) {
        Some(length) => *length,
        None => 0,
    }
}

/// Puts the line of a peer at the end of `out`, where the taken log of its shard has this length.
pub(crate) fn put_line(
    length: u64,
    peer: usize,
    mark: PeerMark,
    out: &mut Vec<u8>,
) -> io::Result<()>
    ensures { OnOk result (out.new.items ≡ out.old.items ++ line_of length peer mark) }
{
    write!(out, "peer {peer} ")?;
    put_mark(length, mark, out)
}

/// Puts the words of a mark at the end of `out`, and the line's end.
fn put_mark(length: u64, mark: PeerMark, out: &mut Vec<u8>) -> io::Result<()>
    ensures { OnOk result (out.new.items ≡ out.old.items ++ mark_text length mark) }
{
    match mark {
        PeerMark::Same => write!(out, "same {length}\n"),
        PeerMark::Behind { length: own } => write!(out, "behind {own} {length}\n"),
        PeerMark::Differs { number } => write!(out, "differs {number}\n"),
        PeerMark::NoLog { at } => write!(out, "nolog {at}\n"),
        PeerMark::Fault => write!(out, "fault\n"),
    }
}

/// How many peers don't have the list that was taken of their shard.
fn bad_of(marks: &[PeerMark]) -> usize
    ensures { result ≡ bad_of marks.now }
{
    marks.iter().filter(|mark| !mark.is_same()).count()
}

/// Puts the last line at the end of `out`, where so many peers don't have the taken list.
fn put_end(bad: usize, out: &mut Vec<u8>) -> io::Result<()>
    ensures { OnOk result (out.new.items ≡ out.old.items ++ end_text bad) }
{
    if bad == 0 {
        write!(out, "scrub ok\n")
    } else {
        write!(out, "scrub bad {bad}\n")
    }
}
