//! What the words of a command line ask for.
ghost use Rattle.std.specs.Prelude.{◌≡◌, IsTrue};
ghost use Rattle.hs_limits.specs.Key.{is_key};
ghost use Rattle.hs_script.specs.CommandLine.{folder_of, no_options};
ghost use Rattle.hs_script.specs.Parts.{key_of};

use hs_limits::{Limits, Shape, is_key};
use std::marker::Model;

/// A command, as the first word names it.
#[derive(Clone, Copy, Debug, PartialEq, Eq)]
pub enum CommandName {
    Script,
    Load,
    Audit,
    Store,
    Fetch,
    Scrub,
    Copy,
}

/// What the options of a command line give. Each command takes some of them.
#[derive(Clone, Copy)]
pub struct Options {
    /// Those of the run, lowered.
    pub limits: Limits,
    pub visits: Option<bool>,
    pub cache: Option<u32>,
    pub seed: Option<u64>,
    pub writers: Option<u8>,
    pub files: u8,
    pub from: Option<u8>,
    pub delete: Option<u32>,
}

impl Options {
    /// Those of a command line that gives none.
    pub const fn new() -> Options
        ensures { result ≡ no_options }
    {
        Options {
            limits: Limits::greatest(),
            visits: None,
            cache: None,
            seed: None,
            writers: None,
            files: 20,
            from: None,
            delete: None,
        }
    }
}

/// The word that names the folder of a store: any that is not empty.
#[derive(Drop)]
pub struct Folder<'a> {
    name: &'a str,
}

impl<'a> Model for Folder<'a> {
    ghost use Rattle.std.specs.Prelude.{List, ℕ};

    ghost Value = { List ℕ };

    ghost view = { λ a. a.name.now };
}

impl<'a> Folder<'a> {
    /// The folder that a word names; None exactly where the word is empty.
    pub fn new(name: &'a str) -> Option<Folder<'a>>
        ensures { result ≡ folder_of name.now }
    {
        if name.is_empty() {
            None
        } else {
            Some(Folder { name })
        }
    }

    /// The word.
    pub fn as_str(&self) -> &'a str
        ensures { result.now ≡ self.now }
    {
        self.name
    }
}

/// The word that is the key of a root.
#[derive(Drop)]
pub struct KeyWord<'a> {
    bytes: &'a [u8],
}

impl<'a> Model for KeyWord<'a> {
    ghost use Rattle.std.specs.Prelude.{List, ℕ, IsTrue};
    ghost use Rattle.hs_limits.specs.Key.{is_key};

    ghost Value = { List ℕ };

    ghost view = { λ a. a.bytes.now };

    ghost invariant = { λ a. IsTrue (is_key a.bytes.now) };
}

impl<'a> KeyWord<'a> {
    /// The key that a word is; None exactly where it is none.
    pub fn new(bytes: &'a [u8]) -> Option<KeyWord<'a>>
        ensures { result ≡ key_of bytes.now }
    {
        if is_key(bytes) {
            Some(KeyWord { bytes })
        } else {
            None
        }
    }

    /// The bytes of the key.
    pub fn as_slice(&self) -> &'a [u8]
        ensures bytes { result.now ≡ self.now }
        ensures valid { IsTrue (is_key self.now) }
    {
        self.bytes
    }
}

/// What a command is to do.
#[derive(Drop)]
pub enum Task<'a> {
    /// Run the script of the input, in these limits. Whether it shows its visits, and of how many
    /// blocks its cache is, where that is given.
    Script {
        limits: Limits,
        visits: Option<bool>,
        cache: Option<u32>,
    },
    /// Run a load that is made from the seed.
    Load {
        seed: u64,
        writers: u8,
        files: u8,
    },
    /// Tell what the store keeps and misses.
    Audit,
    /// Store the input as a file under a key.
    Store {
        key: KeyWord<'a>,
    },
    /// Print the file of a key.
    Fetch {
        key: KeyWord<'a>,
    },
    /// Compare the copies of each shard, and make those of a peer's shard as that peer's is.
    Scrub {
        from: Option<u8>,
    },
    /// Copy the root of a key into a second store, with a deletion after so many writes.
    Copy {
        key: KeyWord<'a>,
        dir: Folder<'a>,
        shape: Shape,
        delete: Option<u32>,
    },
}

/// What a command line asks for: a task on the store of this folder and this shape.
#[derive(Drop)]
pub struct Invocation<'a> {
    pub dir: Folder<'a>,
    pub shape: Shape,
    pub task: Task<'a>,
}
