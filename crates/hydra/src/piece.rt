//! The piece of a file that was read last.
ghost use Rattle.std.specs.Prelude.{◌≡◌, ◌<◌, ◌≤◌, IfOk, IfSome, length};

use crate::retry::read_some_at;
use std::alloc::{AllocError, Global};
use std::io;
use std::os::unix::fs::FileExt;

/// The most bytes that one call reads: where it goes on from where the last one ended.
const WHOLE: u64 = 65_536;

/// The most bytes that it reads elsewhere, and the least that go past the piece.
pub const NEAR: u64 = 4096;

/// Bytes of a file from a place on, as they were read last. Its room is kept, and only a front of it
/// is filled.
#[derive(Drop)]
pub struct Piece {
    at: u64,
    filled: usize,
    bytes: Vec<u8>,
    ghost within: { filled ≤ length bytes.items },
}

impl Piece {
    /// A piece that holds nothing. It takes no memory.
    pub fn new(alloc: Global) -> Piece {
        Piece {
            at: 0,
            filled: 0,
            bytes: Vec::new(alloc),
        }
    }

    /// What is held from a place on, where something is.
    pub fn held(&self, at: u64) -> Option<&[u8]>
        ensures { IfSome result (λ held. 0 < length held.now) }
    {
        let before = at.checked_sub(self.at)?;
        if before >= self.filled as u64 {
            return None;
        }
        Some(&self.bytes[before as usize..self.filled])
    }

    /// Forgets what is held.
    pub fn give_up(&mut self) {
        self.at = 0;
        self.filled = 0;
    }

    // How many bytes a read at a place asks for, where so many are there.
    fn asked(&self, at: u64, there: u64) -> usize
        ensures { 0 < there → 0 < result }
    {
        let goes_on = at.checked_sub(self.at) == Some(self.filled as u64);
        let most = if goes_on { WHOLE } else { NEAR };
        there.min(most) as usize
    }

    /// Makes room for what a read at a place asks for, where so many bytes are there.
    pub fn make_room(&mut self, at: u64, there: u64) -> Result<(), AllocError> {
        let asked = self.asked(at, there);
        if self.bytes.len() < asked {
            self.bytes.resize(asked, 0)?;
        }
        Ok(())
    }

    /// Reads a file at a place by one call, where so many bytes are there and room was made: what is
    /// held then. It holds nothing where that fails.
    pub fn load<F: FileExt>(&mut self, file: &F, at: u64, there: u64) -> io::Result<&[u8]>
        ensures { IfOk result (λ held. 0 < length held.now) }
    {
        let most = self.asked(at, there).min(self.bytes.len());
        self.at = at;
        self.filled = 0;
        let count = read_front(file, at, most, &mut self.bytes)?;
        self.filled = count;
        Ok(&self.bytes[..count])
    }
}

// Reads a file at a place into a front of the bytes, and at least one byte.
fn read_front<F: FileExt>(file: &F, at: u64, most: usize, bytes: &mut Vec<u8>) -> io::Result<usize>
    requires { most ≤ length bytes.old.items }
    ensures some { IfOk result (λ n. 0 < n) }
    ensures within { IfOk result (λ n. n ≤ length bytes.old.items) }
    ensures same_size { length bytes.new.items ≡ length bytes.old.items }
{
    let count = read_some_at(file, &mut bytes[..most], at)?;
    if count == 0 {
        return Err(io::ErrorKind::UnexpectedEof.into());
    }
    Ok(count)
}
