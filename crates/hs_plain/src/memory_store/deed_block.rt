//! Whether blocks of the plain store were written, found and read as an entry says, and roots put.
ghost use Rattle.std.specs.Prelude.{◌≡◌, ◌↔◌, IsTrue, IfOk, List};
ghost use Rattle.hs_model.specs.declared.deed.Deed.TheVariants.{Marked, ReadBlock, Rooted, Wrote};
ghost use Rattle.hs_limits.specs.declared.limits.Limits.{Limits};
ghost use Rattle.hs_model.specs.declared.reply.Reply.TheVariants.{Dup, New};
ghost use Rattle.hs_model.specs.Deeds.{DeedEntry};
ghost use Rattle.hs_plain.specs.Deeds.{Does, HasHandles};

use super::MemoryStore;
use hs_limits::{Address, Held, Key, Limits, ListOf, Name};
use hs_model::{ModelFault, Reply};

impl MemoryStore {
    /// Whether an absent block was written; where it was, it is.
    pub(super) fn does_write(
        &mut self,
        limits: Limits,
        session: &Name,
        address: &Address,
        pointers: &ListOf<Address>,
        handle: u32,
        told: &Reply,
    ) -> Result<bool, ModelFault>
        ensures { IfOk result (λ is. (before : List DeedEntry)
            → Does limits self.old before (Wrote session.now address.now pointers.now handle) told.now is self.new) }
    {
        if !self.may_take(limits, session, address, pointers.as_slice(), handle) {
            return Ok(false);
        }
        if !is_new(told, handle, self.epoch_at(address)) {
            return Ok(false);
        }
        let pointers = pointers.copy(self.alloc)?;
        let none = ListOf::new(self.alloc);
        self.grant_write(session.copy(self.alloc)?, *address, pointers, none)?;
        Ok(true)
    }

    /// Whether a write found its block; where it did, it is given.
    pub(super) fn does_mark(
        &mut self,
        session: &Name,
        address: &Address,
        handle: u32,
        told: &Reply,
    ) -> Result<bool, ModelFault>
        ensures { IfOk result (λ is. (limits : Limits) (before : List DeedEntry)
            → Does limits self.old before (Marked session.now address.now handle) told.now is self.new) }
    {
        if !self.may_mark(session, address, handle) {
            return Ok(false);
        }
        if !is_dup(told, handle, self.epoch_at(address)) {
            return Ok(false);
        }
        let pointers = self.pointers_at(address)?;
        let none = ListOf::new(self.alloc);
        self.grant_write(session.copy(self.alloc)?, *address, pointers, none)?;
        Ok(true)
    }

    /// Whether a block was read; where it was, its pointers are held.
    pub(super) fn does_read(
        &mut self,
        session: &Name,
        held: Held,
        handles: &ListOf<u32>,
        told: &Reply,
    ) -> Result<bool, ModelFault>
        ensures { IfOk result (λ is. (limits : Limits) (before : List DeedEntry)
            → Does limits self.old before (ReadBlock session.now held.address held.epoch handles.now) told.now is self.new) }
    {
        if !self.may_read(session, &held) {
            return Ok(false);
        }
        if !has_handles(told, handles) {
            return Ok(false);
        }
        let answer = self.grant_read(session.copy(self.alloc)?, held)?;
        Ok(has_handles(&answer.reply, handles))
    }

    /// Whether a root was put; where it was, it is.
    pub(super) fn does_root(
        &mut self,
        limits: Limits,
        key: &Key,
        address: &Address,
        told: &Reply,
    ) -> Result<bool, ModelFault>
        ensures { IfOk result (λ is. (before : List DeedEntry)
            → Does limits self.old before (Rooted key.now address.now) told.now is self.new) }
    {
        if !self.is_held_fresh(self.root_epoch(key), address) {
            return Ok(false);
        }
        if !matches!(told, Reply::Ok) {
            return Ok(false);
        }
        if let Some(_) = self.key_refusal(limits, key, address)? {
            return Ok(false);
        }
        self.grant_root(key.copy(self.alloc)?, *address)?;
        Ok(true)
    }
}

/// Whether a reply tells bytes with these handles.
fn has_handles(told: &Reply, handles: &ListOf<u32>) -> bool
    ensures { IsTrue result ↔ HasHandles told.now handles.now }
{
    match told {
        Reply::Bytes { handles: found, .. } => found.as_slice() == handles.as_slice(),
        _ => false,
    }
}

/// Whether a reply tells that a block is new, with this handle and epoch.
fn is_new(told: &Reply, handle: u32, epoch: u64) -> bool
    ensures { IsTrue result ↔ (told.now ≡ New handle epoch) }
{
    match told {
        Reply::New {
            handle: found,
            epoch: now,
        } => *found == handle && *now == epoch,
        _ => false,
    }
}

/// Whether it tells that the block was there.
fn is_dup(told: &Reply, handle: u32, epoch: u64) -> bool
    ensures { IsTrue result ↔ (told.now ≡ Dup handle epoch) }
{
    match told {
        Reply::Dup {
            handle: found,
            epoch: now,
        } => *found == handle && *now == epoch,
        _ => false,
    }
}
