//! One side of a disk: a file and its length.
ghost use Rattle.std.specs.Prelude.{◌≡◌, ◌+◌, ◌<◌, ◌≤◌, ◌^◌, Some, IfOk, IfErr, IfSome, OnOk, OnErr, IsNone, IsSome, length, max};
ghost use Rattle.hs_ports.specs.Disk.{HasRead, IsBetween};
ghost use Rattle.hydra.specs.SideFault.{Keeps, Tells};

use crate::file_fault::{Deed, SideFault, note};
use crate::piece::{NEAR, Piece};
use crate::retry::write_some_at;
use crate::straight::read_straight;
use hs_ports::PortFault;
use std::fs::OpenFile;
use std::io;
use std::os::unix::fs::FileExt;

/// A file and its length, or none: then the length is 0, and each call fails. The piece that was read
/// last is kept until something is written or cut, or reading one fails.
#[derive(Drop)]
pub struct SideFile<F> {
    pub file: Option<F>,
    pub len: u64,
    /// The first call that failed.
    pub fault: Option<SideFault>,
    piece: Option<Piece>,
    ghost fits: { len < 2 ^ 64 },
}

impl<F: FileExt + OpenFile> SideFile<F> {
    /// A file of this length.
    pub fn new(file: F, len: u64) -> SideFile<F>
        ensures value { result.len ≡ len }
    {
        SideFile {
            file: Some(file),
            len,
            fault: None,
            piece: None,
        }
    }

    /// No file, and the fault for which there is none.
    pub fn absent(fault: Option<SideFault>) -> SideFile<F>
        ensures file { IsNone result.file }
        ensures value { result.len ≡ 0 }
        ensures fault { result.fault ≡ fault }
    {
        SideFile {
            file: None,
            len: 0,
            fault,
            piece: None,
        }
    }

    /// The length.
    pub fn length(&self) -> Result<u64, PortFault>
        ensures value { IfOk result (λ n. n ≡ self.now.len) }
        ensures not_memory { IfErr result (λ fault. fault ≡ PortFault.Failed) }
        ensures absent { IsNone self.now.file → result ≡ Err PortFault.Failed }
    {
        match &self.file {
            Some(_) => Ok(self.len),
            None => Err(PortFault::Failed),
        }
    }

    /// Appends some of what stands from the place on, or nothing. What the piece holds comes from it.
    /// Else 4,096 bytes or more go straight from the file to the end of `into`, and fewer by a piece
    /// that is read anew. So of 65,572 bytes at a new place, of which 4 are asked for and then the
    /// rest, the first 4,096 come from a piece, and the system alone copies the other 61,476.
    pub fn read(&mut self, at: u64, max: usize, into: &mut Vec<u8>) -> Result<usize, PortFault>
        requires { 0 < max }
        ensures found { IfOk result (λ n.
            HasRead self.old.len at max into.old.items into.new.items n) }
        ensures untaken { OnErr result (into.new.items ≡ into.old.items) }
        ensures same { self.new.len ≡ self.old.len }
        ensures absent { IsNone self.old.file → result ≡ Err PortFault.Failed }
        ensures told { IsSome self.old.file → Tells result self.new.fault }
        ensures kept { Keeps self.old.fault self.new.fault }
    {
        let mut piece = match self.piece.take() {
            Some(piece) => piece,
            None => Piece::new(*into.allocator()),
        };
        let answer = match &self.file {
            Some(file) => read_from(file, &mut piece, &mut self.fault, self.len, at, max, into),
            None => Err(PortFault::Failed),
        };
        self.piece = Some(piece);
        answer
    }

    /// Writes over what is there and past the end; after a fault maybe a front alone.
    pub fn write_at(&mut self, at: u64, bytes: &[u8]) -> Result<(), PortFault>
        ensures size { OnOk result (
            self.new.len ≡ max self.old.len (at + length bytes.now)) }
        ensures size_torn { OnErr result (IsBetween self.old.len
            (max self.old.len (at + length bytes.now)) self.new.len) }
        ensures not_memory { IfErr result (λ fault. fault ≡ PortFault.Failed) }
        ensures absent { IsNone self.old.file → result ≡ Err PortFault.Failed }
        ensures told { IsSome self.old.file → Tells result self.new.fault }
        ensures kept { Keeps self.old.fault self.new.fault }
    {
        self.give_up();
        let fits = at.checked_add(bytes.len() as u64).is_some();
        match &self.file {
            Some(_) if !fits => {
                let reason = io::ErrorKind::FileTooLarge.into();
                note(&mut self.fault, Deed::Write, reason);
                Err(PortFault::Failed)
            }
            Some(file) => {
                let done = write_from(file, &mut self.fault, at, bytes);
                self.len = self.len.max(at + done as u64);
                if done == bytes.len() {
                    Ok(())
                } else {
                    Err(PortFault::Failed)
                }
            }
            None => Err(PortFault::Failed),
        }
    }

    // Gives up the piece that was read last.
    fn give_up(&mut self)
        ensures file { self.new.file ≡ self.old.file }
        ensures value { self.new.len ≡ self.old.len }
        ensures fault { self.new.fault ≡ self.old.fault }
    {
        if let Some(piece) = &mut self.piece {
            piece.give_up();
        }
    }

    /// Cuts the file to this length.
    pub fn cut(&mut self, len: u64) -> Result<(), PortFault>
        ensures size { OnOk result (self.new.len ≡ len) }
        ensures same { OnErr result (self.new.len ≡ self.old.len) }
        ensures not_memory { IfErr result (λ fault. fault ≡ PortFault.Failed) }
        ensures absent { IsNone self.old.file → result ≡ Err PortFault.Failed }
        ensures told { IsSome self.old.file → Tells result self.new.fault }
        ensures kept { Keeps self.old.fault self.new.fault }
    {
        self.give_up();
        let Some(file) = &self.file else {
            return Err(PortFault::Failed);
        };
        match file.set_len(len) {
            Ok(()) => {
                self.len = len;
                Ok(())
            }
            Err(reason) => {
                note(&mut self.fault, Deed::Cut, reason);
                Err(PortFault::Failed)
            }
        }
    }

    /// Puts the file on the medium.
    pub fn sync(&mut self) -> Result<(), PortFault>
        ensures same { self.new.len ≡ self.old.len }
        ensures not_memory { IfErr result (λ fault. fault ≡ PortFault.Failed) }
        ensures absent { IsNone self.old.file → result ≡ Err PortFault.Failed }
        ensures told { IsSome self.old.file → Tells result self.new.fault }
        ensures kept { Keeps self.old.fault self.new.fault }
    {
        let Some(file) = &self.file else {
            return Err(PortFault::Failed);
        };
        match file.sync_all() {
            Ok(()) => Ok(()),
            Err(reason) => {
                note(&mut self.fault, Deed::Sync, reason);
                Err(PortFault::Failed)
            }
        }
    }
}

// Appends what the piece holds of a file of this length from a place on, or nothing. Where it holds
// nothing of it, one call reads what is asked for straight, or the piece anew where that is little.
fn read_from<F: FileExt>(
    file: &F,
    piece: &mut Piece,
    fault: &mut Option<SideFault>,
    len: u64,
    at: u64,
    max: usize,
    into: &mut Vec<u8>,
) -> Result<usize, PortFault>
    requires { 0 < max }
    ensures found { IfOk result (λ n. HasRead len at max into.old.items into.new.items n) }
    ensures untaken { OnErr result (into.new.items ≡ into.old.items) }
    ensures told { Tells result fault.new }
    ensures kept { Keeps fault.old fault.new }
{
    if at >= len {
        return Ok(0);
    }
    let most = (len - at).min(max as u64) as usize;
    if let Some(held) = piece.held(at) {
        return append(held, most, into);
    }
    if most as u64 >= NEAR {
        return read_straight(file, fault, at, most, into);
    }
    if piece.make_room(at, len - at).is_err() {
        return Err(PortFault::NoMemory);
    }
    match piece.load(file, at, len - at) {
        Ok(held) => append(held, most, into),
        Err(reason) => {
            note(fault, Deed::Read, reason);
            Err(PortFault::Failed)
        }
    }
}

// Appends a front of what is held.
fn append(held: &[u8], max: usize, into: &mut Vec<u8>) -> Result<usize, PortFault>
    requires some { 0 < length held.now }
    requires max { 0 < max }
    ensures found { IfOk result (λ n.
        HasRead (length held.now) 0 max into.old.items into.new.items n) }
    ensures untaken { OnErr result (into.new.items ≡ into.old.items) }
    ensures memory { IfErr result (λ fault. fault ≡ PortFault.NoMemory) }
{
    let count = held.len().min(max);
    match into.extend_from_slice(&held[..count]) {
        Ok(()) => Ok(count),
        Err(_) => Err(PortFault::NoMemory),
    }
}

// Writes from a place on, and says how many bytes the file took: all, unless it failed.
fn write_from<F: FileExt>(file: &F, fault: &mut Option<SideFault>, at: u64, bytes: &[u8]) -> usize
    requires { at + length bytes.now < 2 ^ 64 }
    ensures within { result ≤ length bytes.now }
    ensures told { result < length bytes.now → IsSome fault.new }
    ensures kept { Keeps fault.old fault.new }
{
    let mut done = 0;
    'pieces: while done < bytes.len() {
        match write_some_at(file, &bytes[done..], at + done as u64) {
            Ok(n) => done += n,
            Err(reason) => {
                note(fault, Deed::Write, reason);
                return done;
            }
        }
    }
    done
}
