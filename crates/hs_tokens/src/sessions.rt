//! The open sessions by name.
ghost use Rattle.std.specs.Prelude.{◌≡◌, ◌∷◌, [], Some, None, length, IfOk, IfSome, IfNone, OnOk, OnErr, IsOkUnless};
ghost use Rattle.std.specs.Option.{option_copied, option_map};
ghost use Rattle.std.specs.Result.{result_err};
ghost use Rattle.hs_tokens.specs.declared.fault.SeatFault.TheVariants as fault;
ghost use Rattle.hs_tokens.specs.Refusals.{open_refusal, close_refusal, hold_refusal, handle_refusal};
ghost use Rattle.hs_tokens.specs.Seats.{seat_of, held_at, held_count, next_number, open_session, close_session, hold, forget, found};

use crate::SeatFault;
use crate::seat::Seat;
use hs_limits::{Held, Limits, Name};
use std::alloc::Global;
use std::collections::BTreeMap;
use std::marker::Model;

/// The open sessions, each with the handles that it holds. A session's handles are numbered from 0,
/// and no number is given twice while it is open.
#[derive(Drop)]
pub struct Sessions {
    seats: BTreeMap<Name, Seat>,
    limits: Limits,
    alloc: Global,
}

impl Model for Sessions {
    ghost use Rattle.std.specs.Prelude.{◌<◌, ◌^◌, length};
    ghost use Rattle.hs_tokens.specs.Seats.{Seating};

    ghost Value = { Seating };

    ghost view = { λ a. record { limits = a.limits; seats = a.seats.entries } };

    ghost invariant = { λ a. length a.seats.entries < 2 ^ 32 };
}

impl Sessions {
    /// No session. It takes no memory.
    pub fn new(alloc: Global, limits: Limits) -> Sessions
        ensures seats { result.seats ≡ [] }
        ensures limits { result.limits ≡ limits }
    {
        Sessions {
            seats: BTreeMap::new(alloc),
            limits,
            alloc,
        }
    }

    /// Opens a session. Refused as SessionTaken where it is open, and else as SessionsFull where as
    /// many as the limit are. A fault changes nothing.
    pub fn open(&mut self, name: &Name) -> Result<(), SeatFault>
        ensures ok { OnOk result (self.new.seats ≡ open_session name.now self.old.seats) }

        // Which refusal comes, and that none comes where no cause holds.
        ensures refused { IfSome (open_refusal self.old.limits name.now self.old.seats)
            (λ cause. result ≡ Err cause) }
        ensures only { IfNone (open_refusal self.old.limits name.now self.old.seats)
            (IsOkUnless result fault.NoMemory) }

        ensures same { OnErr result (self.new.seats ≡ self.old.seats) }
        ensures limits { self.new.limits ≡ self.old.limits }
    {
        if self.seats.contains_key(name) {
            return Err(SeatFault::SessionTaken);
        }
        if self.seats.len() >= self.limits.sessions as usize {
            return Err(SeatFault::SessionsFull {
                limit: self.limits.sessions,
            });
        }
        let name = name.copy(self.alloc)?;
        self.seats.insert(name, Seat::new(self.alloc))?;
        Ok(())
    }

    /// Closes a session, and gives up what it holds. Refused as NoSession where it is not open, and
    /// then nothing changes. It takes no memory.
    pub fn close(&mut self, name: &Name) -> Result<(), SeatFault>
        ensures ok { OnOk result (self.new.seats ≡ close_session name.now self.old.seats) }
        ensures refused { result_err result ≡ close_refusal (seat_of name.now self.old.seats) }
        ensures same { OnErr result (self.new.seats ≡ self.old.seats) }
        ensures limits { self.new.limits ≡ self.old.limits }
    {
        match self.seats.remove(name) {
            Some(_) => Ok(()),
            None => Err(SeatFault::NoSession),
        }
    }

    /// Makes a session hold one address more, and answers the handle's number, which is its next one.
    /// Refused as NoSession where it is not open, and else as HandlesFull where it holds as many as
    /// the limit. NoMemory also where there is no next number. A fault changes nothing.
    pub fn hold(&mut self, name: &Name, held: Held) -> Result<u32, SeatFault>
        ensures ok { OnOk result (self.new.seats ≡ hold name.now (held ∷ []) self.old.seats) }
        ensures number { IfOk result
            (λ handle. handle ≡ next_number (seat_of name.now self.old.seats)) }
        ensures unused { IfOk result
            (λ handle. held_at (seat_of name.now self.old.seats) handle ≡ None) }

        // Which refusal comes, and that none comes where no cause holds.
        ensures refused { IfSome (hold_refusal self.old.limits (seat_of name.now self.old.seats))
            (λ cause. result ≡ Err cause) }
        ensures only { IfNone (hold_refusal self.old.limits (seat_of name.now self.old.seats))
            (IsOkUnless result fault.NoMemory) }

        ensures same { OnErr result (self.new.seats ≡ self.old.seats) }
        ensures limits { self.new.limits ≡ self.old.limits }
    {
        let limit = self.limits.handles;
        let Some(seat) = self.seats.get_mut(name) else {
            return Err(SeatFault::NoSession);
        };
        if seat.held() >= limit {
            return Err(SeatFault::HandlesFull { limit });
        }
        seat.hold(held)
    }

    /// What a handle of a session stands for. Refused as NoSession where it is not open, and else as
    /// NoHandle where it does not hold the handle. It takes no memory.
    pub fn find(&self, name: &Name, handle: u32) -> Result<Held, SeatFault>
        ensures held { IfOk result (λ held. held ≡ found self.now.seats name.now handle) }
        ensures refused { result_err result
            ≡ handle_refusal (seat_of name.now self.now.seats) handle }
    {
        let Some(seat) = self.seats.get(name) else {
            return Err(SeatFault::NoSession);
        };
        match seat.find(handle) {
            Some(held) => Ok(held),
            None => Err(SeatFault::NoHandle),
        }
    }

    /// Makes a session give up a handle. Refused as `find` is, and then nothing changes. It takes no
    /// memory.
    pub fn forget(&mut self, name: &Name, handle: u32) -> Result<(), SeatFault>
        ensures ok { OnOk result (self.new.seats ≡ forget name.now handle self.old.seats) }
        ensures refused { result_err result
            ≡ handle_refusal (seat_of name.now self.old.seats) handle }
        ensures same { OnErr result (self.new.seats ≡ self.old.seats) }
        ensures limits { self.new.limits ≡ self.old.limits }
    {
        let Some(seat) = self.seats.get_mut(name) else {
            return Err(SeatFault::NoSession);
        };
        seat.forget(handle)
    }

    /// The number of open sessions. It takes no memory.
    pub fn len(&self) -> u32
        ensures { result ≡ length self.now.seats }
    {
        self.seats.len() as u32
    }

    /// How many handles a session holds. None exactly where it is not open. It takes no memory.
    pub fn held(&self, name: &Name) -> Option<u32>
        ensures { result ≡ option_map held_count (seat_of name.now self.now.seats) }
    {
        self.seats.get(name).map(|seat| seat.held())
    }

    /// The next handle number of a session. None exactly where it is not open. It takes no memory.
    pub fn next(&self, name: &Name) -> Option<u32>
        ensures { result ≡ option_map (λ seat. seat.next) (seat_of name.now self.now.seats) }
    {
        self.seats.get(name).map(|seat| seat.next())
    }

    /// The open session of a name. It takes no memory.
    pub(crate) fn seat(&self, name: &Name) -> Option<&Seat>
        ensures { option_copied result ≡ seat_of name.now self.now.seats }
    {
        self.seats.get(name)
    }

    /// The open session of a name, with its name. It takes no memory.
    pub(crate) fn entry(&self, name: &Name) -> Option<(&Name, &Seat)>
        ensures { IfSome result (λ at. seat_of at.0.now self.now.seats ≡ Some at.1.now) }
    {
        self.seats.get_key_value(name)
    }
}
