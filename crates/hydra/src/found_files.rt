//! What is told of a folder and its files before a run: what was made, and what is no log.
use crate::file_disk::FileDisk;
use std::alloc::Global;
use std::fs::File;
use std::io;
use std::io::Write;

/// How many bytes the head of a side has, with the gate of the first frame.
pub const HEAD: usize = 18;

/// The byte of an open gate, and the name behind it in the head of a log.
const OPEN: u8 = 0xa5;

const NAME: &[u8] = b"HSL1";

/// Writes that the folder was made.
pub fn tell_folder<E: Write>(alloc: Global, errors: &mut E, dir: &str) -> io::Result<()> {
    let mut line = Vec::new(alloc);
    write!(line, "hydra: the folder {dir} was made\n")?;
    errors.write_all(&line)
}

/// Writes that the folder of the one store is that of the other.
pub fn tell_same<E: Write>(alloc: Global, errors: &mut E, dir: &str) -> io::Result<()> {
    let mut line = Vec::new(alloc);
    write!(line, "hydra: both stores are in the folder {dir}\n")?;
    errors.write_all(&line)
}

/// Writes which files were made beside one that is not empty.
pub fn tell_made<E: Write>(
    alloc: Global,
    errors: &mut E,
    dir: &str,
    disks: &[FileDisk<File>],
) -> io::Result<()> {
    let Some(full) = disks.iter().position(|disk| disk.has_bytes()) else {
        return Ok(());
    };
    for (peer, disk) in disks.iter().enumerate() {
        if disk.is_new && !disk.has_bytes() {
            let mut line = Vec::new(alloc);
            write!(
                line,
                "hydra: {dir}/peer{peer}.side0 was made anew beside the files of peer {full}\n"
            )?;
            errors.write_all(&line)?;
        }
    }
    Ok(())
}

/// Writes which files have bytes that are no log, which a run so takes as empty.
pub fn tell_foreign<E: Write>(
    alloc: Global,
    errors: &mut E,
    dir: &str,
    disks: &[FileDisk<File>],
) -> io::Result<()> {
    for (peer, disk) in disks.iter().enumerate() {
        if disk.is_foreign {
            let size = disk.zero.len;
            let mut line = Vec::new(alloc);
            write!(
                line,
                "hydra: {dir}/peer{peer}.side0 has {size} bytes that are no log: it counts as empty, and is written over\n"
            )?;
            errors.write_all(&line)?;
        }
    }
    Ok(())
}

/// Whether side zero has bytes and is blank, and these are not what a stop leaves of making a log, by
/// its first bytes, and side one is blank: so a run makes a log of side zero.
pub fn is_foreign(zero: &[u8], one: &[u8]) -> bool {
    !is_open(one) && !is_open(zero) && !is_begun(zero)
}

/// Whether a side is not blank, by its first bytes: it has a whole head, and the gate is open.
pub fn is_open(front: &[u8]) -> bool {
    match front {
        [gate, ..] => *gate == OPEN && front.len() >= HEAD,
        [] => false,
    }
}

// Whether these are the first bytes of a side of which a log is to be made, or none are there, as
// where they could not be read.
fn is_begun(front: &[u8]) -> bool {
    match front {
        [] => true,
        [0, name @ ..] => NAME.starts_with(name) || name.starts_with(NAME),
        _ => false,
    }
}
