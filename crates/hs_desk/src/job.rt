//! What a peer is given to do on its disk.
ghost use Rattle.std.specs.Prelude.{◌≡◌};
ghost use Rattle.hs_desk.specs.Slips.{work_of};

use hs_entry::Entry;

/// A job of one peer.
#[derive(Debug, Drop)]
pub enum Job {
    /// Append the entry under this number.
    Append { number: u64, entry: Entry },
    /// Seal the entry of this number.
    Seal { number: u64 },
    /// Read the block of the entry of this number.
    Read { number: u64 },
    /// Empty the disk.
    Reset,
    /// Copy the entry of this number from the disk of the peer `from`: a copying step.
    Copy { from: u8, number: u64 },
    /// Do one step of a reclamation.
    Reclaim,
}

/// What is next for a peer: a job, nothing more after the handling of a message, or nothing at all.
#[derive(Debug, Drop)]
pub enum Next {
    Do(Job),
    Handled,
    Idle,
}

/// The job that a peer has in hand, without its entry.
#[derive(Clone, Copy, Debug, PartialEq, Eq)]
pub enum Work {
    Append { number: u64 },
    Seal { number: u64 },
    Read { number: u64 },
}

impl Work {
    /// The work that a job is. None for a Reset, a Copy and a Reclaim, of which no slip keeps a note.
    pub fn of(job: &Job) -> Option<Work>
        ensures { result ≡ work_of job.now }
    {
        match job {
            Job::Append { number, .. } => Some(Work::Append { number: *number }),
            Job::Seal { number } => Some(Work::Seal { number: *number }),
            Job::Read { number } => Some(Work::Read { number: *number }),
            Job::Reset | Job::Copy { .. } | Job::Reclaim => None,
        }
    }
}
