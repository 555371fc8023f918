//! The book as those who ask see it.
ghost use Rattle.std.specs.Prelude.{◌≡◌, ◌+◌, None, Some, true, IsSome, IfOk, is_some, length};
ghost use Rattle.hs_book.specs.Answers.{Hears, is_line_answered};
ghost use Rattle.hs_book.specs.Calls.{DoesEvent};
ghost use Rattle.hs_book.specs.Events.{HasWholeAddress};
ghost use Rattle.hs_core_words.specs.declared.event.Event.TheVariants as event;
ghost use Rattle.hs_desk.specs.Faults.{EndsOnce};
ghost use Rattle.hs_desk.specs.Tokens.{HasAddress, HasAnswered, IsOfSession, begun};
ghost use Rattle.hs_model.specs.Judge.{asked_of};
ghost use Rattle.hs_model.specs.declared.op.Asked.{Asked};

use crate::{Book, BookPass, Opening};
use hs_desk::{Clerk, CoreFault};
use hs_limits::Address;
use hs_model::{Op, Reply};

impl<O: Opening> Clerk for Book<O> {
    type Pass = BookPass;

    ghost ended = { λ b. b.ended };

    ghost is_answered = { λ b number. is_line_answered number b.core.journal };

    /// Begins an operation, and answers its number: one Line, of the next number.
    #[tactic(auto, using(crate::proofs::HistoryLemmas::still_a_book))]
    fn begin(&mut self, pass: &mut BookPass, op: Op) -> Result<u64, CoreFault>
        requires asked { pass.old.asked ≡ None }
        requires own { IsOfSession pass.old.session op }
        requires address { HasAddress op }

        ensures noted { pass.new ≡ begun (asked_of op) result pass.old }

        ensures number { IfOk result (λ number. number ≡ self.old.core.progress.last_line + 1) }
        ensures does { DoesEvent (Some (event.Line (self.old.core.progress.last_line + 1) op))
            self.old self.new }

        ensures ends { EndsOnce self.old.ended self.new.ended result }
    {
        let _whole = is_whole(&op);
        self.keeper.begin_for(&mut pass.token, op)
    }

    /// The answer of the operation that is under way: that of the first entry of the journal which
    /// answers its line. None exactly where there is none yet. It is no event.
    #[tactic(auto, using(crate::proofs::HistoryLemmas::still_a_book))]
    fn answer(&mut self, pass: &mut BookPass, number: u64) -> Result<Option<Reply>, CoreFault>
        requires asked { IsSome pass.old.asked }
        requires number { pass.old.number ≡ number }

        ensures noted { (asked : Asked) → pass.old.asked ≡ Some asked
            → HasAnswered asked pass.old pass.new result }
        ensures found { IfOk result (λ reply.
            is_some reply ≡ is_line_answered number self.old.core.journal) }

        ensures told { (asked : Asked) → pass.old.asked ≡ Some asked
            → Hears number self.old.core.journal asked pass.old pass.new result }
        ensures does { DoesEvent None self.old self.new }

        ensures ends { EndsOnce self.old.ended self.new.ended result }
    {
        self.keeper.answer_for(&mut pass.token, number)
    }
}

/// Whether the address that an operation brings, if it brings one, has 32 bytes, as every address.
fn is_whole(op: &Op) -> bool
    requires { HasAddress op.now }
    ensures value { result ≡ true }
    ensures whole { HasWholeAddress op.now }
{
    match op {
        Op::Write { address, .. } => match address {
            Some(address) => has_32_bytes(*address),
            None => true,
        },
        _ => true,
    }
}

/// Whether an address has 32 bytes, as every address.
fn has_32_bytes(address: Address) -> bool
    ensures value { result ≡ true }
    ensures whole { length address.0 ≡ 32 }
{
    address.0.len() == 32
}
