//! What a job came to.
ghost use Rattle.std.specs.Prelude.{◌≡◌, IfOk};
ghost use Rattle.hs_desk.specs.Answers.{answers};

use crate::Job;
use hs_shared::SharedBytes;
use std::alloc::AllocError;

/// The report of a job.
#[derive(Debug, Drop)]
pub enum Done {
    /// The entry of this number was appended.
    Stored { number: u64 },
    /// The entry of this number was sealed.
    Sealed { number: u64 },
    /// The bytes of the block of the entry of this number.
    Bytes { number: u64, bytes: SharedBytes },
    /// No entry of this number is kept, or none with a block.
    Gone { number: u64 },
    /// The disk was emptied.
    Emptied,
    /// The entry of this number was copied and sealed.
    Copied { number: u64 },
    /// A step of a reclamation was done; `switched` where it was the last.
    Stepped { switched: bool },
    /// A call of the disk of the peer `disk` failed.
    Failed { disk: u8 },
}

impl Done {
    /// Whether this may be the report of the job of a peer. It takes no memory.
    pub fn answers(&self, peer: u8, job: &Job) -> bool
        ensures { result ≡ answers peer job.now self.now }
    {
        match (self, job) {
            (Done::Stored { number }, Job::Append { number: asked, .. }) => number == asked,
            (Done::Sealed { number }, Job::Seal { number: asked }) => number == asked,
            (Done::Bytes { number, .. }, Job::Read { number: asked }) => number == asked,
            (Done::Gone { number }, Job::Read { number: asked }) => number == asked,
            (Done::Emptied, Job::Reset) => true,
            (Done::Copied { number }, Job::Copy { number: asked, .. }) => number == asked,
            (Done::Stepped { .. }, Job::Reclaim) => true,
            (Done::Failed { disk }, Job::Copy { from, .. }) => *disk == peer || disk == from,
            (Done::Failed { disk }, _) => *disk == peer,
            _ => false,
        }
    }

    /// The same report again. The two share the bytes of a block. It fails only where no more owners
    /// of the bytes can be counted.
    pub fn copy(&self) -> Result<Done, AllocError>
        ensures { IfOk result (λ done. done ≡ self.now) }
    {
        match *self {
            Done::Stored { number } => Ok(Done::Stored { number }),
            Done::Sealed { number } => Ok(Done::Sealed { number }),
            Done::Bytes { number, ref bytes } => Ok(Done::Bytes {
                number,
                bytes: bytes.copy()?,
            }),
            Done::Gone { number } => Ok(Done::Gone { number }),
            Done::Emptied => Ok(Done::Emptied),
            Done::Copied { number } => Ok(Done::Copied { number }),
            Done::Stepped { switched } => Ok(Done::Stepped { switched }),
            Done::Failed { disk } => Ok(Done::Failed { disk }),
        }
    }
}
