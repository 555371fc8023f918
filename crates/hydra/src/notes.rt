//! What the program tells of a file that failed, before the line of the status.
ghost use Rattle.std.specs.Prelude.{◌≡◌, ◌++◌, IfOk, OnOk, string_bytes};
ghost use Rattle.std.specs.Io.KnownBytes.{Appends};
ghost use Rattle.std.specs.Option.{option_map};
ghost use Rattle.hydra.specs.FileNote.{failed_text, file_text, first_fault, place_text, side_digit};
ghost use Rattle.hydra.specs.SideFault.{deed_words};

use crate::file_disk::FileDisk;
use crate::file_fault::{Deed, FileFault};
use hs_ports::Side;
use std::alloc::{AllocError, Global};
use std::fs::File;
use std::io;
use std::io::Write;

/// The first file of a folder that failed: its peer and side, what failed, and the reason in words.
#[derive(Drop)]
pub struct FileNote {
    pub peer: usize,
    pub failed: FileFault,
    pub reason: String,
}

/// The first fault of the first disk that has one.
pub fn note_of(alloc: Global, disks: &[FileDisk<File>]) -> Result<Option<FileNote>, AllocError>
    ensures found { IfOk result (λ note.
        option_map (λ n. (n.peer, n.failed)) note ≡ first_fault 0 disks.now) }
{
    match first_fault(disks) {
        Some((peer, failed)) => {
            let reason = format!(in alloc; "{}", failed.fault.reason)?;
            Ok(Some(FileNote {
                peer,
                failed,
                reason,
            }))
        }
        None => Ok(None),
    }
}

// The first fault of the first disk that has one, with the number of that disk.
fn first_fault(disks: &[FileDisk<File>]) -> Option<(usize, FileFault)>
    ensures { result ≡ first_fault 0 disks.now }
{
    let mut peer = 0;
    let mut rest = disks;
    'disks: while let [disk, more @ ..] = rest {
        if let Some(failed) = disk.fault() {
            return Some((peer, failed));
        }
        peer += 1;
        rest = more;
    }
    None
}

/// Writes the line that a file failed, where one did.
pub fn tell_file<E: Write>(
    alloc: Global,
    errors: &mut E,
    dir: &str,
    note: &Option<FileNote>,
) -> io::Result<()>
    ensures ok { OnOk result (Appends (E.contents errors.old) (E.contents errors.new)
        (file_text dir.now note.now)) }
{
    let mut line = Vec::new(alloc);
    if let Some(note) = note {
        put_file(&mut line, dir, note)?;
    }
    errors.write_all(&line)
}

// Puts the line at the end of `line`.
fn put_file(line: &mut Vec<u8>, dir: &str, note: &FileNote) -> io::Result<()>
    ensures ok { OnOk result (line.new.items ≡ line.old.items ++ failed_text
        (place_text dir.now note.now.peer note.now.failed.side note.now.failed.fault.deed)
        (deed_words note.now.failed.fault.deed) (string_bytes note.now.reason)) }
{
    let deed = note.failed.fault.deed;
    write!(line, "hydra: ")?;
    put_place(line, dir, note.peer, note.failed.side, deed)?;
    let words = deed.words();
    let reason = note.reason.as_str();
    write!(line, " can't be {words}: {reason}\n")
}

// Puts the name of the folder at the end of `line`, or of a file in it.
fn put_place(line: &mut Vec<u8>, dir: &str, peer: usize, side: Side, deed: Deed) -> io::Result<()>
    ensures ok { OnOk result (line.new.items ≡
        line.old.items ++ place_text dir.now peer side deed) }
{
    if deed.is_of_folder() {
        write!(line, "{dir}")
    } else {
        let digit = side_digit(side);
        write!(line, "{dir}/peer{peer}.side{digit}")
    }
}

// The digit of a side.
fn side_digit(side: Side) -> &'static str
    ensures { result.now ≡ side_digit side }
{
    match side {
        Side::Zero => "0",
        Side::One => "1",
    }
}
