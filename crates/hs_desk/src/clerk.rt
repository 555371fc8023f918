//! The book as those who ask see it.
ghost use Rattle.std.specs.Prelude.{◌≡◌, None, Some, IsSome, IfOk, is_some};
ghost use Rattle.hs_model.specs.Judge.{asked_of};
ghost use Rattle.hs_model.specs.declared.op.Asked.{Asked};
ghost use Rattle.hs_desk.specs.Faults.{EndsOnce};
ghost use Rattle.hs_desk.specs.Tokens.{HasAddress, HasAnswered, IsOfSession, begun};

use crate::{CoreFault, Token};
use hs_model::{Op, Reply};

/// What one asks with. Generic code changes its token by the calls of a clerk alone.
pub trait Pass {
    ghost use Rattle.hs_desk.specs.declared.token.Token.{Token};

    /// The token.
    ghost noted: { Self → Token };

    /// The token.
    fn token(&self) -> &Token
        ensures { result.now ≡ noted self.now };
}

/// Takes operations and hands out their answers.
pub trait Clerk {
    ghost use Rattle.std.specs.Prelude.{ℕ, Bool, Option};
    ghost use Rattle.hs_desk.specs.declared.fault.CoreFault.{CoreFault};

    type Pass: Pass;

    /// Why it has ended.
    ghost ended: { Self → Option CoreFault };

    /// Whether the operation of a number has an entry in the journal.
    ghost is_answered: { Self → ℕ → Bool };

    /// Begins an operation, and answers its number. One operation of a pass is under way at a time.
    fn begin(&mut self, pass: &mut Self::Pass, op: Op) -> Result<u64, CoreFault>
        requires asked { (Self.Pass.noted pass.old).asked ≡ None }
        requires own { IsOfSession (Self.Pass.noted pass.old).session op }
        requires address { HasAddress op }

        ensures noted { Self.Pass.noted pass.new ≡ begun (asked_of op) result (Self.Pass.noted pass.old) }

        ensures ends { EndsOnce (ended self.old) (ended self.new) result };

    /// The answer of the operation that is under way. None exactly where it has none yet.
    fn answer(&mut self, pass: &mut Self::Pass, number: u64) -> Result<Option<Reply>, CoreFault>
        requires asked { IsSome (Self.Pass.noted pass.old).asked }
        requires number { (Self.Pass.noted pass.old).number ≡ number }

        ensures noted { (asked : Asked) → (Self.Pass.noted pass.old).asked ≡ Some asked
            → HasAnswered asked (Self.Pass.noted pass.old) (Self.Pass.noted pass.new) result }
        ensures found { IfOk result (λ reply. is_some reply ≡ is_answered self.old number) }

        ensures ends { EndsOnce (ended self.old) (ended self.new) result };
}
