//! The jobs that a book hands out.
ghost use Rattle.std.specs.Prelude.{◌≡◌, true, IfOk};
ghost use Rattle.hs_desk.specs.Slips.{is_own_job};
ghost use Rattle.hs_entry.specs.Entries.{is_of_base};

use hs_desk::Job;
use hs_entry::Entry;
use std::alloc::{AllocError, Global};

/// A job once more: an Append of no Base and of no kept frame, a Seal or a Read. Another one, which
/// is never due in a book, counts as want of memory.
pub(crate) fn copy_own(alloc: Global, job: &Job) -> Result<Job, AllocError>
    ensures same { IfOk result (λ copy. copy ≡ job.now) }
    ensures own { IfOk result (λ copy. is_own_job copy ≡ true) }
{
    match job {
        Job::Append { number, entry } => {
            if is_of_base(entry) {
                return Err(AllocError);
            }
            Ok(Job::Append {
                number: *number,
                entry: entry.copy(alloc)?,
            })
        }
        Job::Seal { number } => Ok(Job::Seal { number: *number }),
        Job::Read { number } => Ok(Job::Read { number: *number }),
        Job::Reset | Job::Copy { .. } | Job::Reclaim => Err(AllocError),
    }
}

/// Whether an entry is a Base or a frame that is kept behind one.
fn is_of_base(entry: &Entry) -> bool
    ensures { result ≡ is_of_base entry.now }
{
    matches!(
        entry,
        Entry::Base { .. }
            | Entry::KeptBlock { .. }
            | Entry::KeptRoot { .. }
            | Entry::KeptRound { .. }
    )
}
