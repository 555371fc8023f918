//! The book as the workers of peers see it.
ghost use Rattle.std.specs.Prelude.{◌≡◌, true, IfOk, Some};
ghost use Rattle.hs_book.specs.Book.{delivery_of, has_nothing, handed_next};
ghost use Rattle.hs_book.specs.Calls.{DoesEvent};
ghost use Rattle.hs_core_words.specs.declared.event.Event.TheVariants as event;
ghost use Rattle.hs_desk.specs.Faults.{EndsOnce};
ghost use Rattle.hs_desk.specs.Slips.{answers_work, handed, is_idle, is_own_next, reported};

use crate::{Book, BookSeat, Opening};
use hs_desk::{CoreFault, Desk, Done, Next};

impl<O: Opening> Desk for Book<O> {
    type Seat = BookSeat;

    ghost ended = { λ b. b.ended };

    ghost has_nothing = { λ b peer. has_nothing peer b.core };

    /// What is next for the peer of a seat, idle where there is no such peer. Handling a message is
    /// one Deliver of it, and nothing else is an event.
    #[tactic(auto, using(crate::proofs::NextLemmas::idle_is_nothing, crate::proofs::HistoryLemmas::still_a_book))]
    fn next(&mut self, seat: &mut BookSeat) -> Result<Next, CoreFault>
        ensures noted { seat.new ≡ handed result seat.old }

        ensures idle { IfOk result (λ next. is_idle next ≡ has_nothing seat.old.peer self.old.core) }
        ensures own { IfOk result (λ next. is_own_next next ≡ true) }
        ensures given { IfOk result (λ next. next ≡ handed_next seat.old.peer self.old.core) }
        ensures does { DoesEvent (delivery_of seat.old.peer self.old.core) self.old self.new }

        ensures ends { EndsOnce self.old.ended self.new.ended result }
    {
        let given = self.keeper.next_for(&mut seat.slip);
        seat.slip.hand(&given);
        given
    }

    /// Takes the report of the work in hand: one Report. One that does not answer the first job of
    /// its peer, which never comes, counts as want of memory.
    #[tactic(auto, using(crate::proofs::HistoryLemmas::still_a_book))]
    fn report(&mut self, seat: &mut BookSeat, done: Done) -> Result<(), CoreFault>
        requires { answers_work seat.old.work seat.old.peer done ≡ true }

        ensures noted { seat.new ≡ reported done result seat.old }

        ensures does { DoesEvent (Some (event.Report seat.old.peer done)) self.old self.new }

        ensures ends { EndsOnce self.old.ended self.new.ended result }
    {
        self.keeper.report_for(&mut seat.slip, done)
    }
}
