//! The summary of a load.
ghost use Rattle.std.specs.Prelude.{◌≡◌, ◌++◌, OnOk, OnErr, IsOkUnless};
ghost use Rattle.std.specs.List.{enumerate_from, flat_map};
ghost use Rattle.hs_script.specs.Summary.{summary_text, writer_text};

use crate::ScriptFault;
use std::alloc::Global;
use std::io;
use std::io::Write;

/// What a writer of a load did.
#[derive(Clone, Copy, Debug, PartialEq, Eq)]
pub struct WriterSum {
    /// The files that it rooted.
    pub files: u32,
    /// Those of them that it did not drop.
    pub kept: u32,
}

/// Puts the summary of a load at the end of `out`: what each writer did, in order, and how many roots
/// and blocks there are. An error leaves `out` as it was.
pub fn summary(
    alloc: Global,
    writers: &[WriterSum],
    roots: u64,
    blocks: u64,
    out: &mut Vec<u8>,
) -> Result<(), ScriptFault>
    ensures ok { OnOk result (out.new.items ≡
        out.old.items ++ summary_text writers.now roots blocks) }
    ensures err { IsOkUnless result ScriptFault.NoMemory }
    ensures same { OnErr result (out.new.items ≡ out.old.items) }
{
    let mut lines = Vec::with_capacity(alloc, 512)?;
    match put_summary(writers, roots, blocks, &mut lines) {
        Ok(()) => {
            out.extend_from_slice(lines.as_slice())?;
            Ok(())
        }
        Err(_) => Err(ScriptFault::NoMemory),
    }
}

/// Puts the summary at the end of `out`.
fn put_summary(writers: &[WriterSum], roots: u64, blocks: u64, out: &mut Vec<u8>) -> io::Result<()>
    ensures { OnOk result (out.new.items ≡
        out.old.items ++ summary_text writers.now roots blocks) }
{
    put_writers(writers, out)?;
    write!(out, "roots {roots}\nblocks {blocks}\n")
}

/// Puts the line of each writer at the end of `out`.
fn put_writers(writers: &[WriterSum], out: &mut Vec<u8>) -> io::Result<()>
    ensures { OnOk result (out.new.items ≡ out.old.items
        ++ flat_map (λ w. writer_text w.0 w.1) (enumerate_from 0 writers.now)) }
{
    for (number, sum) in writers.iter().enumerate() {
        put_writer(number, *sum, out)?;
    }
    Ok(())
}

/// Puts the line of a writer at the end of `out`.
fn put_writer(number: usize, sum: WriterSum, out: &mut Vec<u8>) -> io::Result<()>
    ensures { OnOk result (out.new.items ≡ out.old.items ++ writer_text number sum) }
{
    let WriterSum { files, kept } = sum;
    write!(out, "writer {number} files {files} kept {kept}\n")
}
