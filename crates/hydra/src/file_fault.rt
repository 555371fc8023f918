//! A call on a file that failed, and what is told of it.
ghost use Rattle.std.specs.Prelude.{◌≡◌, IsSome};
ghost use Rattle.hydra.specs.SideFault.{Keeps, deed_words, is_of_folder};

use hs_ports::Side;
use std::io;

/// What was to be done with a file, or with its folder.
#[derive(Clone, Copy)]
pub enum Deed {
    /// Making the folder.
    Make,
    /// Opening the file, or having its length.
    Open,
    /// Keeping other runs out.
    Lock,
    Read,
    Write,
    Cut,
    Sync,
}

impl Deed {
    /// What could not be done, in words.
    pub fn words(self) -> &'static str
        ensures { result.now ≡ deed_words self }
    {
        match self {
            Deed::Make => "made",
            Deed::Open => "opened",
            Deed::Lock => "locked",
            Deed::Read => "read",
            Deed::Write => "written",
            Deed::Cut => "cut",
            Deed::Sync => "synced",
        }
    }

    /// Whether it is done with the folder, and not with a file in it.
    pub fn is_of_folder(self) -> bool
        ensures { result ≡ is_of_folder self }
    {
        match self {
            Deed::Make => true,
            Deed::Open | Deed::Lock | Deed::Read | Deed::Write | Deed::Cut | Deed::Sync => false,
        }
    }
}

/// What failed, and why, as the system says.
#[derive(Clone, Copy, Drop)]
pub struct SideFault {
    pub deed: Deed,
    pub reason: io::Error,
}

/// A fault, and the side of the disk that it is of.
#[derive(Clone, Copy, Drop)]
pub struct FileFault {
    pub side: Side,
    pub fault: SideFault,
}

/// Keeps a fault where it is the first one.
pub fn note(first: &mut Option<SideFault>, deed: Deed, reason: io::Error)
    ensures told { IsSome first.new }
    ensures kept { Keeps first.old first.new }
{
    if first.is_none() {
        *first = Some(SideFault { deed, reason });
    }
}
