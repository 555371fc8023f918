//! The open sessions as one operation sees them.
ghost use Rattle.std.specs.Prelude.{◌≡◌, IfOk, length};
ghost use Rattle.std.specs.Option.{option_copied, option_map};
ghost use Rattle.std.specs.Result.{result_err};
ghost use Rattle.hs_tokens.specs.Refusals.{handle_refusal};
ghost use Rattle.hs_tokens.specs.Seats.{found, held_count, seat_of};

use crate::seat::Seat;
use crate::{SeatFault, Sessions};
use hs_limits::{Held, Name};
use std::marker::Model;

/// The open sessions with one of them at hand, so that what is asked of it again and again costs one
/// look-up by its name.
#[derive(Drop)]
pub struct SessionsView<'a> {
    sessions: &'a Sessions,
    at_hand: Option<(&'a Name, &'a Seat)>,
}

impl<'a> Model for SessionsView<'a> {
    ghost use Rattle.std.specs.Prelude.{◌≡◌, IfSome, Some};
    ghost use Rattle.hs_tokens.specs.Seats.{Seats, seat_of};

    ghost Value = { Seats };

    ghost view = { λ a. a.sessions.now.seats };

    ghost invariant = { λ a. IfSome a.at_hand
        (λ at. seat_of at.0.now a.sessions.now.seats ≡ Some at.1.now) };
}

impl<'a> SessionsView<'a> {
    /// The open sessions, with the one of this name at hand, where it is open. It takes no memory.
    pub fn new(sessions: &'a Sessions, name: Option<&Name>) -> SessionsView<'a>
        ensures { result ≡ sessions.now.seats }
    {
        let at_hand = match name {
            Some(name) => sessions.entry(name),
            None => None,
        };
        SessionsView { sessions, at_hand }
    }

    /// What a handle of a session stands for. Refused as NoSession where it is not open, and else as
    /// NoHandle where it does not hold the handle. It takes no memory.
    pub fn find(&self, name: &Name, handle: u32) -> Result<Held, SeatFault>
        ensures held { IfOk result (λ held. held ≡ found self.now name.now handle) }
        ensures refused { result_err result ≡ handle_refusal (seat_of name.now self.now) handle }
    {
        let Some(seat) = self.seat(name) else {
            return Err(SeatFault::NoSession);
        };
        match seat.find(handle) {
            Some(held) => Ok(held),
            None => Err(SeatFault::NoHandle),
        }
    }

    /// The number of open sessions. It takes no memory.
    pub fn len(&self) -> u32
        ensures { result ≡ length self.now }
    {
        self.sessions.len()
    }

    /// How many handles a session holds. None exactly where it is not open. It takes no memory.
    pub fn held(&self, name: &Name) -> Option<u32>
        ensures { result ≡ option_map held_count (seat_of name.now self.now) }
    {
        self.seat(name).map(|seat| seat.held())
    }

    /// The next handle number of a session. None exactly where it is not open. It takes no memory.
    pub fn next(&self, name: &Name) -> Option<u32>
        ensures { result ≡ option_map (λ seat. seat.next) (seat_of name.now self.now) }
    {
        self.seat(name).map(|seat| seat.next())
    }

    /// The open session of a name.
    #[tactic(auto, using(crate::proofs::SeatLemmas::same_name))]
    fn seat(&self, name: &Name) -> Option<&Seat>
        ensures { option_copied result ≡ seat_of name.now self.now }
    {
        if let Some((own, seat)) = self.at_hand {
            if own == name {
                return Some(seat);
            }
        }
        self.sessions.seat(name)
    }
}
