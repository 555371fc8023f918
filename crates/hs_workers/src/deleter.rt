//! The work of the deleter.
ghost use Rattle.std.specs.Prelude.{◌≡◌, None};
ghost use Rattle.hs_script.specs.Loads.{deletion_behind};
ghost use Rattle.hs_workers.specs.Asks.{HasEnded};

use crate::ask::ask;
use crate::shared::is_own_fault;
use crate::{Shared, WorkFault};
use hs_desk::{Clerk, Pass};
use hs_model::Op;
use std::sync::Wait;

/// The work of the deleter of a load: it asks for a deletion four times, each behind the answer of the one
/// before. Whatever comes, it is none of those who ask any more once it has returned.
pub fn deleter_work<H: Wait, B: Clerk>(
    rt: &H,
    book: &Shared<B>,
    pass: &mut B::Pass,
) -> Result<(), WorkFault>
    requires fault { (B.Pass.noted pass.old).fault ≡ None }
    requires asked { (B.Pass.noted pass.old).asked ≡ None }

    ensures ended { HasEnded deletion_behind (B.Pass.noted pass.old) (B.Pass.noted pass.new) result }
{
    let ended = ask_deletions(rt, book, pass);
    book.leave(rt, is_own_fault(&ended));
    ended
}

/// Asks for a deletion four times.
fn ask_deletions<H: Wait, B: Clerk>(
    rt: &H,
    book: &Shared<B>,
    pass: &mut B::Pass,
) -> Result<(), WorkFault>
    requires asked { (B.Pass.noted pass.old).asked ≡ None }

    ensures ended { HasEnded deletion_behind (B.Pass.noted pass.old) (B.Pass.noted pass.new) result }
{
    for turn in 0..4 {
        let _turn: u32 = turn;
        ask(rt, book, pass, Op::Delete)?;
    }
    Ok(())
}
