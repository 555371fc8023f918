//! The summary of a load.
ghost use Rattle.std.specs.Prelude.{◌≡◌, IfOk};
ghost use Rattle.hs_load.specs.Loaded.{AreSums};
ghost use Rattle.hs_load.specs.Tallied.{blocks_in, roots_in};
ghost use Rattle.hs_script.specs.Summary.{summary_text};

use crate::counting::{blocks_in, roots_in};
use hs_core::Core;
use hs_script::{WriterSum, summary};
use hs_workers::WorkFault;
use std::alloc::{AllocError, Global};

/// What each of so many writers counted.
pub(crate) fn sums_of(
    alloc: Global,
    ends: &[Result<WriterSum, WorkFault>],
    writers: u8,
) -> Result<Vec<WriterSum>, AllocError>
    ensures { IfOk result (λ sums. AreSums sums.items writers ends.now) }
{
    let mut sums = Vec::new(alloc);
    for number in 0..writers {
        match ends.get(usize::from(number)) {
            Some(Ok(sum)) => sums.push(*sum)?,
            Some(Err(_)) | None => return Err(AllocError),
        }
    }
    Ok(sums)
}

/// The summary, of what a core counts.
pub(crate) fn summary_of(
    alloc: Global,
    sums: &[WriterSum],
    core: &Core,
) -> Result<Vec<u8>, AllocError>
    ensures { IfOk result (λ text. text.items
        ≡ summary_text sums.now (roots_in core.now) (blocks_in core.now)) }
{
    let mut text = Vec::new(alloc);
    match summary(alloc, sums, roots_in(core), blocks_in(core), &mut text) {
        Ok(()) => Ok(text),
        Err(_) => Err(AllocError),
    }
}
