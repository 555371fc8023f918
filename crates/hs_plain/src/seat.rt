//! An open session of the plain store.
ghost use Rattle.std.specs.Prelude.{◌≡◌, ◌∷◌, [], false, length, IfOk, OnOk};
ghost use Rattle.std.specs.List.{range_with_len};
ghost use Rattle.std.specs.Option.{option_map_or};
ghost use Rattle.hs_model.specs.Deeds.{is_too_long};
ghost use Rattle.hs_model.specs.Judge.{forgetting};
ghost use Rattle.hs_model.specs.Refusals.{first, too_many, handles_full_in, no_handle_in, stale_in, stale_handle};
ghost use Rattle.hs_plain.specs.Holding.{has_each, has_fresh, has_held, is_fresh_of, is_held, may_mark, may_take};
ghost use Rattle.hs_model.specs.Store.{new_session, holding, holding_all, held_in, helds_of};

use hs_limits::{Address, Held, Limits, ListOf, MOST_BYTES, MOST_POINTERS};
use hs_model::{ModelFault, Reply};
use std::alloc::Global;
use std::collections::BTreeMap;
use std::marker::Model;

/// An open session: its next handle number, and what it holds by number.
#[derive(Drop)]
pub(crate) struct Seat {
    next: u32,
    handles: BTreeMap<u32, Held>,
}

impl Model for Seat {
    ghost use Rattle.hs_model.specs.Store.{Session};

    ghost Value = { Session };

    ghost view = { λ a. record { next = a.next; handles = a.handles.entries } };
}

impl Seat {
    /// A session that holds nothing.
    pub(crate) fn new(alloc: Global) -> Seat
        ensures { result ≡ new_session }
    {
        Seat {
            next: 0,
            handles: BTreeMap::new(alloc),
        }
    }

    /// What a handle stands for.
    pub(crate) fn held(&self, handle: u32) -> Option<Held>
        ensures { result ≡ held_in (Some self.now) handle }
    {
        self.handles.get(&handle).copied()
    }

    /// Holds one address more, under the next number.
    pub(crate) fn hold(&mut self, held: Held) -> Result<u32, ModelFault>
        ensures number { IfOk result (λ handle. handle ≡ self.old.next) }
        ensures holds { OnOk result (self.new ≡ holding held self.old) }
    {
        let handle = self.next;
        let Some(next) = handle.checked_add(1) else {
            return Err(ModelFault::NoMemory);
        };
        self.handles.insert(handle, held)?;
        self.next = next;
        Ok(handle)
    }

    /// Holds each of these addresses in order, as given in one epoch.
    pub(crate) fn hold_each(
        &mut self,
        addresses: &[Address],
        epoch: u64,
        alloc: Global,
    ) -> Result<ListOf<u32>, ModelFault>
        ensures numbers { IfOk result
            (λ handles. handles ≡ range_with_len self.old.next (length addresses.now)) }
        ensures holds { OnOk result
            (self.new ≡ holding_all (helds_of addresses.now epoch) self.old) }
    {
        let mut handles = ListOf::new(alloc);
        for address in addresses {
            let handle = self.hold(Held {
                address: *address,
                epoch,
            })?;
            handles.push(handle)?;
        }
        Ok(handles)
    }

    /// Gives up a handle, if it holds it.
    pub(crate) fn forget(&mut self, handle: u32)
        ensures { self.new ≡ forgetting handle self.old }
    {
        self.handles.remove(&handle);
    }

    /// Why a handle may not be used in an epoch, if it may not.
    pub(crate) fn use_refusal(&self, now: u64, handle: u32) -> Option<Reply>
        ensures { result ≡ first (no_handle_in (Some self.now) (handle ∷ [])
            ∷ stale_in (Some self.now) now (handle ∷ [])
            ∷ []) }
    {
        if let Some(refusal) = self.no_handle(&[handle]) {
            return Some(refusal);
        }
        self.stale(now, &[handle])
    }

    /// Why it takes no write of so many bytes and these handles in an epoch, if it does not.
    pub(crate) fn write_refusal(
        &self,
        limits: Limits,
        now: u64,
        length: u64,
        handles: &[u32],
    ) -> Option<Reply>
        ensures { result ≡ first (is_too_long length
            ∷ too_many handles.now
            ∷ no_handle_in (Some self.now) handles.now
            ∷ handles_full_in limits (Some self.now) 1
            ∷ stale_in (Some self.now) now handles.now
            ∷ []) }
    {
        if length > MOST_BYTES as u64 {
            return Some(Reply::TooLong { found: length });
        }
        if handles.len() > MOST_POINTERS {
            return Some(Reply::TooMany {
                found: handles.len() as u64,
            });
        }
        if let Some(refusal) = self.no_handle(handles) {
            return Some(refusal);
        }
        if let Some(refusal) = self.handles_full(limits, 1) {
            return Some(refusal);
        }
        self.stale(now, handles)
    }

    /// Why it takes no read through a handle in an epoch, of a block with so many pointers, if it
    /// does not.
    pub(crate) fn read_refusal(
        &self,
        limits: Limits,
        now: u64,
        handle: u32,
        more: usize,
    ) -> Option<Reply>
        ensures { result ≡ first (no_handle_in (Some self.now) (handle ∷ [])
            ∷ stale_in (Some self.now) now (handle ∷ [])
            ∷ handles_full_in limits (Some self.now) more
            ∷ []) }
    {
        if let Some(refusal) = self.no_handle(&[handle]) {
            return Some(refusal);
        }
        if let Some(refusal) = self.stale(now, &[handle]) {
            return Some(refusal);
        }
        self.handles_full(limits, more)
    }

    /// Whether it has this, with its epoch.
    pub(crate) fn has_held(&self, held: &Held) -> bool
        ensures { result ≡ has_held self.now held.now }
    {
        self.handles
            .keys()
            .any(|handle| stands_for(self.held(*handle), held))
    }

    /// Whether it has an address in an epoch that is fresh in another.
    pub(crate) fn has_fresh(&self, now: u64, address: &Address) -> bool
        ensures { result ≡ has_fresh self.now now address.now }
    {
        self.handles
            .keys()
            .any(|handle| stands_fresh(self.held(*handle), now, address))
    }

    /// Whether it has each of some addresses in such an epoch.
    pub(crate) fn has_each(&self, now: u64, addresses: &[Address]) -> bool
        ensures { result ≡ has_each self.now now addresses.now }
    {
        addresses.iter().all(|address| self.has_fresh(now, address))
    }

    /// Whether it may write a block that points to some addresses, in an epoch, and a handle is its next.
    pub(crate) fn may_take(
        &self,
        limits: Limits,
        now: u64,
        pointers: &[Address],
        handle: u32,
    ) -> bool
        ensures { result ≡ may_take limits self.now now pointers.now handle }
    {
        self.may_mark(now, pointers, handle)
            && pointers.len() <= MOST_POINTERS
            && self.handles_full(limits, 1).is_none()
    }

    /// Whether it has each of some addresses in a fresh epoch, and a handle is its next.
    pub(crate) fn may_mark(&self, now: u64, pointers: &[Address], handle: u32) -> bool
        ensures { result ≡ may_mark self.now now pointers.now handle }
    {
        self.has_each(now, pointers) && self.next == handle
    }

    /// The refusal where so many new handles would make more than the limit.
    pub(crate) fn handles_full(&self, limits: Limits, more: usize) -> Option<Reply>
        ensures { result ≡ handles_full_in limits (Some self.now) more }
    {
        if self.handles.len().saturating_add(more) > limits.handles as usize {
            return Some(Reply::HandlesFull {
                limit: limits.handles,
            });
        }
        None
    }

    /// The refusal for the first handle that it does not hold.
    #[tactic(auto, using(crate::proofs::FirstLemmas::no_handle_found, crate::proofs::FirstLemmas::no_handle_skips, crate::proofs::FirstLemmas::no_handle_ends))]
    pub(crate) fn no_handle(&self, handles: &[u32]) -> Option<Reply>
        ensures { result ≡ no_handle_in (Some self.now) handles.now }
    {
        for handle in handles {
            if self.held(*handle).is_none() {
                return Some(Reply::NoHandle { handle: *handle });
            }
        }
        None
    }

    /// The refusal for the first handle that is stale in an epoch.
    #[tactic(auto, using(crate::proofs::FirstLemmas::stale_found, crate::proofs::FirstLemmas::stale_skips, crate::proofs::FirstLemmas::stale_ends))]
    pub(crate) fn stale(&self, now: u64, handles: &[u32]) -> Option<Reply>
        ensures { result ≡ stale_in (Some self.now) now handles.now }
    {
        for handle in handles {
            if let Some(refusal) = stale_handle(now, *handle, self.held(*handle)) {
                return Some(refusal);
            }
        }
        None
    }
}

/// The refusal where what a handle stands for was given more than one epoch before this one.
fn stale_handle(now: u64, handle: u32, held: Option<Held>) -> Option<Reply>
    ensures { result ≡ stale_handle now handle held }
{
    let held = held?;
    if now > held.epoch && now - held.epoch > 1 {
        return Some(Reply::Stale {
            handle,
            held: held.epoch,
            now,
        });
    }
    None
}

/// Whether a handle stands for an address in an epoch that is fresh in another.
fn stands_fresh(held: Option<Held>, now: u64, address: &Address) -> bool
    ensures { result ≡ option_map_or (is_fresh_of now address.now) held false }
{
    let Some(held) = held else {
        return false;
    };
    held.address == *address && now.saturating_sub(1) <= held.epoch
}

/// Whether a handle stands for this.
fn stands_for(held: Option<Held>, wanted: &Held) -> bool
    ensures { result ≡ option_map_or (is_held wanted.now) held false }
{
    let Some(held) = held else {
        return false;
    };
    held.address == wanted.address && held.epoch == wanted.epoch
}
