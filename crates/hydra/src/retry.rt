//! One read or one write, tried again where it was interrupted.
ghost use Rattle.std.specs.Prelude.{◌≡◌, ◌<◌, ◌≤◌, IfOk, OnErr, length, take};
ghost use Rattle.std.specs.Io.KnownBytes.{Appends, Consumes, IsAtEnd, Keeps};

use std::io;
use std::io::{ErrorKind, Read, Write};
use std::os::unix::fs::FileExt;

/// Reads into the front of `piece`, and says how many bytes; 0 is the end, or an empty piece.
pub fn read_some<R: Read>(reader: &mut R, piece: &mut [u8]) -> io::Result<usize>
    ensures within { IfOk result (λ n. n ≤ length piece.new) }
    ensures given { IfOk result (λ n.
        Consumes (R.remaining reader.old) (R.remaining reader.new) (take n piece.new)) }
    ensures ended { IfOk result (λ n.
        n ≡ 0 → 0 < length piece.old → IsAtEnd (R.remaining reader.new)) }
    ensures kept { OnErr result (Keeps (R.remaining reader.old) (R.remaining reader.new)) }
{
    'tries: for _ in 0..u64::MAX {
        match reader.read(piece) {
            Ok(n) => return Ok(n),
            Err(error) => {
                if error.kind() != ErrorKind::Interrupted {
                    return Err(error);
                }
            }
        }
    }
    Err(ErrorKind::TimedOut.into())
}

/// Writes a front of `piece`, and says how many bytes; a write that takes nothing is an error.
pub fn write_some<W: Write>(writer: &mut W, piece: &[u8]) -> io::Result<usize>
    ensures some { IfOk result (λ n. 0 < n) }
    ensures within { IfOk result (λ n. n ≤ length piece.now) }
    ensures taken { IfOk result (λ n.
        Appends (W.contents writer.old) (W.contents writer.new) (take n piece.now)) }
{
    'tries: for _ in 0..u64::MAX {
        match writer.write(piece) {
            Ok(0) => return Err(ErrorKind::WriteZero.into()),
            Ok(n) => return Ok(n),
            Err(error) => {
                if error.kind() != ErrorKind::Interrupted {
                    return Err(error);
                }
            }
        }
    }
    Err(ErrorKind::TimedOut.into())
}

/// Reads from a place of a file on into the front of `piece`, by one call of the system, and says
/// how many bytes; 0 is the end, or an empty piece.
pub fn read_some_at<F: FileExt>(file: &F, piece: &mut [u8], at: u64) -> io::Result<usize>
    ensures { IfOk result (λ n. n ≤ length piece.new) }
{
    'tries: for _ in 0..u64::MAX {
        match file.read_at(piece, at) {
            Ok(n) => return Ok(n),
            Err(error) => {
                if error.kind() != ErrorKind::Interrupted {
                    return Err(error);
                }
            }
        }
    }
    Err(ErrorKind::TimedOut.into())
}

/// Writes a front of `piece` from a place of a file on, by one call of the system, and says how many
/// bytes; a write that takes nothing is an error.
pub fn write_some_at<F: FileExt>(file: &F, piece: &[u8], at: u64) -> io::Result<usize>
    ensures some { IfOk result (λ n. 0 < n) }
    ensures within { IfOk result (λ n. n ≤ length piece.now) }
{
    'tries: for _ in 0..u64::MAX {
        match file.write_at(piece, at) {
            Ok(0) => return Err(ErrorKind::WriteZero.into()),
            Ok(n) => return Ok(n),
            Err(error) => {
                if error.kind() != ErrorKind::Interrupted {
                    return Err(error);
                }
            }
        }
    }
    Err(ErrorKind::TimedOut.into())
}
