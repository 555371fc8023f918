//! One open session.
ghost use Rattle.std.specs.Prelude.{◌≡◌, None, IfOk, OnOk, OnErr};
ghost use Rattle.std.specs.Result.{result_err};
ghost use Rattle.hs_tokens.specs.Refusals.{handle_refusal};
ghost use Rattle.hs_tokens.specs.Seats.{new_seat, with_held, without_handle, held_at, held_count};

use crate::SeatFault;
use hs_limits::Held;
use std::alloc::Global;
use std::collections::BTreeMap;
use std::marker::Model;

/// An open session: its next handle number, and what it holds by number. Each number that it holds
/// is below the next one, so that none is given twice.
#[derive(Drop)]
pub(crate) struct Seat {
    next: u32,
    handles: BTreeMap<u32, Held>,
}

impl Model for Seat {
    ghost use Rattle.std.specs.Prelude.{ℕ, ◌<◌, ◌^◌, IsSome};
    ghost use Rattle.std.specs.BTreeMap.{get};
    ghost use Rattle.std.specs.Ordering.{nat_cmp};
    ghost use Rattle.hs_tokens.specs.Seats.{Seat};

    ghost Value = { Seat };

    ghost view = { λ a. record { next = a.next; handles = a.handles.entries } };

    ghost invariant = { λ a. record {
      below : (handle : ℕ) → IsSome (get nat_cmp a.handles handle) → handle < a.next;
      fits : a.next < 2 ^ 32;
    } };
}

impl Seat {
    /// A session that holds nothing. It takes no memory.
    pub(crate) fn new(alloc: Global) -> Seat
        ensures { result ≡ new_seat }
    {
        Seat {
            next: 0,
            handles: BTreeMap::new(alloc),
        }
    }

    /// The next handle number.
    pub(crate) fn next(&self) -> u32
        ensures { result ≡ self.now.next }
    {
        self.next
    }

    /// How many handles it holds.
    pub(crate) fn held(&self) -> u32
        ensures { result ≡ held_count self.now }
    {
        self.handles.len() as u32
    }

    /// What a handle stands for.
    pub(crate) fn find(&self, handle: u32) -> Option<Held>
        ensures { result ≡ held_at (Some self.now) handle }
    {
        self.handles.get(&handle).copied()
    }

    /// Holds one address more, under the next number. Without memory, or without a next number, it
    /// stays as it was.
    pub(crate) fn hold(&mut self, held: Held) -> Result<u32, SeatFault>
        ensures ok { OnOk result (self.new ≡ with_held held self.old) }
        ensures number { IfOk result (λ handle. handle ≡ self.old.next) }
        ensures unused { IfOk result (λ handle. held_at (Some self.old) handle ≡ None) }
        ensures only { OnErr result (result ≡ Err SeatFault.NoMemory) }
        ensures same { OnErr result (self.new ≡ self.old) }
    {
        let handle = self.next;
        let Some(next) = handle.checked_add(1) else {
            return Err(SeatFault::NoMemory);
        };
        self.handles.insert(handle, held)?;
        self.next = next;
        Ok(handle)
    }

    /// Gives up a handle. Refused as NoHandle where it does not hold it, and then nothing changes.
    pub(crate) fn forget(&mut self, handle: u32) -> Result<(), SeatFault>
        ensures ok { OnOk result (self.new ≡ without_handle handle self.old) }
        ensures refused { result_err result ≡ handle_refusal (Some self.old) handle }
        ensures same { OnErr result (self.new ≡ self.old) }
    {
        match self.handles.remove(&handle) {
            Some(_) => Ok(()),
            None => Err(SeatFault::NoHandle),
        }
    }
}
