//! The book as the workers of peers see it.
ghost use Rattle.std.specs.Prelude.{◌≡◌, true, IfOk};
ghost use Rattle.hs_desk.specs.Faults.{EndsOnce};
ghost use Rattle.hs_desk.specs.Slips.{answers_work, handed, is_idle, is_own_next, reported};

use crate::{CoreFault, Done, Next, Slip};

/// Where a worker sits. Generic code changes its slip by the calls of a desk alone.
pub trait Seat {
    ghost use Rattle.hs_desk.specs.declared.slip.Slip.{Slip};

    /// The slip.
    ghost noted: { Self → Slip };

    /// The slip.
    fn slip(&self) -> &Slip
        ensures { result.now ≡ noted self.now };
}

/// Hands out jobs and takes reports.
pub trait Desk {
    ghost use Rattle.std.specs.Prelude.{ℕ, Bool, Option};
    ghost use Rattle.hs_desk.specs.declared.fault.CoreFault.{CoreFault};

    type Seat: Seat;

    /// Why it has ended.
    ghost ended: { Self → Option CoreFault };

    /// Whether a peer has neither a job nor a message.
    ghost has_nothing: { Self → ℕ → Bool };

    /// What is next for the peer of a seat: an Append, a Seal or a Read, the handling of a message,
    /// or nothing. Room is taken for what the report of a job may add to the slip.
    fn next(&mut self, seat: &mut Self::Seat) -> Result<Next, CoreFault>
        ensures noted { Self.Seat.noted seat.new ≡ handed result (Self.Seat.noted seat.old) }

        ensures idle { IfOk result (λ next.
            is_idle next ≡ has_nothing self.old (Self.Seat.noted seat.old).peer) }
        ensures own { IfOk result (λ next. is_own_next next ≡ true) }

        ensures ends { EndsOnce (ended self.old) (ended self.new) result };

    /// Takes the report of the work in hand.
    fn report(&mut self, seat: &mut Self::Seat, done: Done) -> Result<(), CoreFault>
        requires { let slip = Self.Seat.noted seat.old in
            answers_work slip.work slip.peer done ≡ true }

        ensures noted { Self.Seat.noted seat.new ≡ reported done result (Self.Seat.noted seat.old) }

        ensures ends { EndsOnce (ended self.old) (ended self.new) result };
}
