//! One side of a disk in memory: its bytes, and the record of the calls that changed it.
ghost use Rattle.std.specs.Prelude.{◌≡◌, ◌<◌, ◌+◌, ◌∷◌, ◌++◌, [], true, false, length, if◌then◌else◌, IfOk, OnOk, OnErr};
ghost use Rattle.std.specs.Prelude.{Some, take, vec_capacity, vec_len};
ghost use Rattle.hs_ports.specs.Disk.{overwritten};
ghost use Rattle.hs_ports.specs.Called.{told};

use crate::change::{Change, Deed};
use crate::history::History;
use crate::image::{replay, shown};
use crate::{PortFault, Tear};
use hs_limits::ListOf;
use std::alloc::{AllocError, Global};
use std::marker::Model;

/// One side. A contract sees its first bytes and the calls so far. A call that is done takes the
/// time and the memory of what it writes; the first one copies the side.
#[derive(Drop)]
pub struct Platter {
    alloc: Global,
    first: Option<ListOf<u8>>,
    held: Vec<u8>,
    changes: Vec<Change>,
    history: History,
}

impl Model for Platter {
    ghost use Rattle.hs_ports.specs.Replay.{Track};
    ghost use Rattle.hs_ports.specs.Platter.{IsReplayed, first_of};

    ghost Value = { Track };

    ghost view = { λ p. record { first = first_of p.first p.held.items; calls = p.history } };

    ghost invariant = { λ p.
        IsReplayed (first_of p.first p.held.items) p.held.items p.changes.items p.history };
}

// Writes over what is there and past the end, or nothing.
pub fn overwrite(held: &mut Vec<u8>, at: u64, bytes: &[u8]) -> Result<(), AllocError>
    ensures ok { OnOk result (held.new.items ≡ overwritten at bytes.now held.old.items) }
    ensures err { OnErr result (held.new.items ≡ held.old.items) }
{
    let start = held.len().min(at as usize);
    let over = bytes.len().min(held.len() - start);
    held.extend_from_slice(&bytes[over..])?;
    held[start..start + over].copy_from_slice(&bytes[..over]);
    Ok(())
}

// Keeps the first bytes apart, if that wasn't done yet.
fn keep_first(alloc: Global, first: &mut Option<ListOf<u8>>, now: &[u8]) -> Result<(), AllocError>
    ensures ok { OnOk result (first.new ≡ Some (first_of first.old now.now)) }
    ensures err { OnErr result (first.new ≡ first.old) }
{
    if first.is_none() {
        let bytes = Vec::from_slice(alloc, now)?;
        *first = Some(ListOf::from_vec(bytes));
    }
    Ok(())
}

// The first bytes, wherever they are kept.
fn first_bytes<'a>(first: &'a Option<ListOf<u8>>, now: &'a [u8]) -> &'a [u8]
    ensures { result.now ≡ first_of first.now now.now }
{
    match first {
        Some(bytes) => bytes.as_slice(),
        None => now,
    }
}

// Adds a call to the record and to the history, for which there is room.
fn keep(changes: &mut Vec<Change>, history: &mut History, change: Change)
    requires { vec_len changes.old < vec_capacity changes.old }
    ensures changes { changes.new.items ≡ changes.old.items ++ change ∷ [] }
    ensures history { history.new ≡ told change true ∷ history.old }
{
    history.add(&change, true);
    match changes.push(change) {
        Ok(()) => {}
        Err(_) => unreachable!(),
    }
}

// Adds a call that failed to the history, and to the record if there is room, which it answers.
fn keep_failed(changes: &mut Vec<Change>, history: &mut History, change: Change) -> bool
    ensures changes { changes.new.items ≡ (if result then
        changes.old.items ++ change ∷ [] else changes.old.items) }
    ensures history { history.new ≡ told change result ∷ history.old }
{
    match changes.reserve(1) {
        Ok(()) => {
            keep(changes, history, change);
            true
        }
        Err(_) => {
            history.add(&change, false);
            false
        }
    }
}

ghost use Rattle.std.specs.Prelude.{◌^◌, IsTrue, IfErr};
ghost use Rattle.hs_ports.specs.Disk.{IsImage};
ghost use Rattle.hs_ports.specs.Platter.{first_of, seen_of, past_of, last_of, after, IsFailed};
ghost use Rattle.hs_ports.specs.Sides.{HasFailed};

impl Platter {
    /// A side with these bytes, before the first call. It takes no memory.
    pub fn new(alloc: Global, bytes: Vec<u8>) -> Platter
        ensures { result ≡ record { first = bytes.items; calls = [] } }
    {
        Platter {
            alloc,
            first: None,
            held: bytes,
            changes: Vec::new(alloc),
            history: History::new(),
        }
    }

    /// What a read gives.
    #[tactic(auto, unfolding(crate::specs::Platter::seen_of))]
    pub fn bytes(&self) -> &[u8]
        ensures value { result.now ≡ seen_of self.now }
    {
        &self.held
    }

    /// What contracts may rest on: the length of a side fits a u64.
    #[tactic(auto, unfolding(crate::specs::Platter::seen_of))]
    pub fn fits(&self)
        ensures { length (seen_of self.now) < 2 ^ 64 }
    {
        let _ = &self.held;
    }

    /// Writes over what is there and past the end, at a moment. Without memory nothing is done.
    pub fn write(&mut self, moment: u64, at: u64, bytes: &[u8]) -> Result<(), AllocError>
        ensures ok { OnOk result (
            self.new ≡ after moment (Deed.Wrote at bytes.now) true self.old) }
        ensures err { OnErr result (self.new ≡ self.old) }
    {
        let copy = ListOf::from_vec(Vec::from_slice(self.alloc, bytes)?);
        keep_first(self.alloc, &mut self.first, &self.held)?;
        self.changes.reserve(1)?;
        overwrite(&mut self.held, at, bytes)?;
        let deed = Deed::Wrote { at, bytes: copy };
        keep(
            &mut self.changes,
            &mut self.history,
            Change { moment, deed },
        );
        Ok(())
    }

    /// Cuts to a length, at a moment. Without memory nothing is done.
    pub fn cut(&mut self, moment: u64, len: u64) -> Result<(), AllocError>
        ensures ok { OnOk result (self.new ≡ after moment (Deed.Cut len) true self.old) }
        ensures err { OnErr result (self.new ≡ self.old) }
    {
        keep_first(self.alloc, &mut self.first, &self.held)?;
        self.changes.reserve(1)?;
        self.held.truncate(len as usize);
        let deed = Deed::Cut { len };
        keep(
            &mut self.changes,
            &mut self.history,
            Change { moment, deed },
        );
        Ok(())
    }

    /// Puts what a read gives on the medium, at a moment. Without memory nothing is done.
    pub fn sync(&mut self, moment: u64) -> Result<(), AllocError>
        ensures ok { OnOk result (self.new ≡ after moment Deed.Synced true self.old) }
        ensures err { OnErr result (self.new ≡ self.old) }
    {
        self.changes.reserve(1)?;
        let deed = Deed::Synced;
        keep(
            &mut self.changes,
            &mut self.history,
            Change { moment, deed },
        );
        Ok(())
    }

    /// Tells of a call that failed. It answers whether the record had room for it.
    pub fn fail(&mut self, moment: u64, deed: Deed) -> bool
        requires { IsFailed deed }
        ensures value { self.new ≡ after moment deed result self.old }
    {
        keep_failed(
            &mut self.changes,
            &mut self.history,
            Change { moment, deed },
        )
    }

    /// Writes, unless the call is refused or memory is wanting, and else tells that it failed.
    pub fn write_or_fail(
        &mut self,
        refused: bool,
        moment: u64,
        at: u64,
        bytes: &[u8],
    ) -> Result<(), PortFault>
        ensures ok { OnOk result (
            self.new ≡ after moment (Deed.Wrote at bytes.now) true self.old) }
        ensures err { OnErr result (
            HasFailed moment (Deed.WriteFailed at (length bytes.now)) self.old self.new) }
        ensures fits { length (seen_of self.new) < 2 ^ 64 }
        ensures refused { IsTrue refused → result ≡ Err PortFault.Failed }
        ensures not_memory { IfErr result (λ fault. fault ≡ PortFault.Failed) }
    {
        if !refused && self.write(moment, at, bytes).is_ok() {
            self.fits();
            return Ok(());
        }
        let len = bytes.len() as u64;
        self.fail(moment, Deed::WriteFailed { at, len });
        self.fits();
        Err(PortFault::Failed)
    }

    /// Cuts, unless the call is refused or memory is wanting, and else tells that it failed.
    pub fn cut_or_fail(&mut self, refused: bool, moment: u64, len: u64) -> Result<(), PortFault>
        ensures ok { OnOk result (self.new ≡ after moment (Deed.Cut len) true self.old) }
        ensures err { OnErr result (HasFailed moment (Deed.CutFailed len) self.old self.new) }
        ensures fits { length (seen_of self.new) < 2 ^ 64 }
        ensures refused { IsTrue refused → result ≡ Err PortFault.Failed }
        ensures not_memory { IfErr result (λ fault. fault ≡ PortFault.Failed) }
    {
        if !refused && self.cut(moment, len).is_ok() {
            self.fits();
            return Ok(());
        }
        self.fail(moment, Deed::CutFailed { len });
        self.fits();
        Err(PortFault::Failed)
    }

    /// Syncs, unless the call is refused or memory is wanting, and else tells that it failed.
    pub fn sync_or_fail(&mut self, refused: bool, moment: u64) -> Result<(), PortFault>
        ensures ok { OnOk result (self.new ≡ after moment Deed.Synced true self.old) }
        ensures err { OnErr result (HasFailed moment Deed.SyncFailed self.old self.new) }
        ensures fits { length (seen_of self.new) < 2 ^ 64 }
        ensures refused { IsTrue refused → result ≡ Err PortFault.Failed }
        ensures not_memory { IfErr result (λ fault. fault ≡ PortFault.Failed) }
    {
        if !refused && self.sync(moment).is_ok() {
            self.fits();
            return Ok(());
        }
        self.fail(moment, Deed::SyncFailed);
        self.fits();
        Err(PortFault::Failed)
    }

    /// One content that a crash at a moment may have left.
    pub fn image_at(&self, moment: u64, tear: Tear) -> Result<Vec<u8>, AllocError>
        ensures image { IfOk result (λ bytes. IsImage (past_of self.now moment) bytes.items) }
        ensures new { tear ≡ Tear.New → last_of self.now < moment → IfOk result (λ bytes.
            bytes.items ≡ seen_of self.now) }
    {
        let first = first_bytes(&self.first, &self.held);
        let count = shown(&self.changes, moment);
        let bytes = replay(self.alloc, tear, first, &self.changes[..count])?;
        Ok(bytes)
    }
}
