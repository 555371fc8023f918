//! One writer's work.
ghost use Rattle.std.specs.Prelude.{◌≡◌, None, IfOk, IfSome, drop, length};
ghost use Rattle.hs_desk.specs.Tokens.{HasAddress, IsOfSession};
ghost use Rattle.hs_script.specs.Loads.{asked, asked_behind, session_name, writer_of};
ghost use Rattle.hs_workers.specs.Asks.{HasEnded, sum_of};
ghost use Rattle.hs_workers.specs.Stages.{stage_told};

use crate::ask::ask;
use crate::blocks::{block_op, file_key};
use crate::shared::is_own_fault;
use crate::stage::{Stage, next_stage, plan_of};
use crate::sums::sum_of;
use crate::{Shared, WorkFault};
use hs_block::Addresser;
use hs_desk::{Clerk, Pass};
use hs_limits::Name;
use hs_model::Op;
use hs_script::WriterSum;
use std::alloc::{AllocError, Global};
use std::sync::Wait;

/// The work of one writer of a load: it opens its session, writes the blocks of its files, keeps the root of
/// each, and gives every fourth up again; it begins a file again where that is stale, and leaves one that is
/// refused otherwise. Whatever comes, it is none of those who ask any more once it has returned.
pub fn writer_work<H: Wait, A: Addresser, B: Clerk>(
    alloc: Global,
    rt: &H,
    naming: &A,
    book: &Shared<B>,
    pass: &mut B::Pass,
    writer: u8,
    seed: u64,
    files: u32,
) -> Result<WriterSum, WorkFault>
    requires fault { (B.Pass.noted pass.old).fault ≡ None }
    requires asked { (B.Pass.noted pass.old).asked ≡ None }
    requires session { (B.Pass.noted pass.old).session ≡ session_name writer }

    ensures ended { HasEnded (asked_behind (writer_of (A.name naming.now) seed writer files))
        (B.Pass.noted pass.old) (B.Pass.noted pass.new) result }
    ensures sum { IfOk result (λ sum. sum
        ≡ sum_of (drop (length (B.Pass.noted pass.old).kept) (B.Pass.noted pass.new).kept)) }
{
    let ended = write_all(alloc, rt, naming, book, pass, writer, seed, files);
    book.leave(rt, is_own_fault(&ended));
    ended
}

/// The same, and tells what was done.
fn write_all<H: Wait, A: Addresser, B: Clerk>(
    alloc: Global,
    rt: &H,
    naming: &A,
    book: &Shared<B>,
    pass: &mut B::Pass,
    writer: u8,
    seed: u64,
    files: u32,
) -> Result<WriterSum, WorkFault>
    requires asked { (B.Pass.noted pass.old).asked ≡ None }
    requires session { (B.Pass.noted pass.old).session ≡ session_name writer }

    ensures ended { HasEnded (asked_behind (writer_of (A.name naming.now) seed writer files))
        (B.Pass.noted pass.old) (B.Pass.noted pass.new) result }
    ensures sum { IfOk result (λ sum. sum
        ≡ sum_of (drop (length (B.Pass.noted pass.old).kept) (B.Pass.noted pass.new).kept)) }
{
    let before = pass.token().kept.len();
    write_files(alloc, rt, naming, book, pass, writer, seed, files)?;
    let sum = sum_of(pass.token().kept.as_slice(), before)?;
    Ok(sum)
}

/// Asks, stage after stage, until nothing more is asked.
fn write_files<H: Wait, A: Addresser, B: Clerk>(
    alloc: Global,
    rt: &H,
    naming: &A,
    book: &Shared<B>,
    pass: &mut B::Pass,
    writer: u8,
    seed: u64,
    files: u32,
) -> Result<(), WorkFault>
    requires asked { (B.Pass.noted pass.old).asked ≡ None }
    requires session { (B.Pass.noted pass.old).session ≡ session_name writer }

    ensures ended { HasEnded (asked_behind (writer_of (A.name naming.now) seed writer files))
        (B.Pass.noted pass.old) (B.Pass.noted pass.new) result }
{
    let mut stage = Stage::Opening;
    for _ in rt.forever() {
        let session = &pass.token().session;
        let Some(op) = next_op(alloc, naming, session, writer, seed, files, &stage)? else {
            return Ok(());
        };
        let reply = ask(rt, book, pass, op)?;
        stage = next_stage(alloc, naming, writer, seed, stage, reply)?;
    }
    unreachable!()
}

/// What a writer asks for at a stage. None where all its files are done.
fn next_op<A: Addresser>(
    alloc: Global,
    naming: &A,
    session: &Name,
    writer: u8,
    seed: u64,
    files: u32,
    stage: &Stage,
) -> Result<Option<Op>, AllocError>
    requires { session.now ≡ session_name writer }

    ensures value { IfOk result (λ op. op
        ≡ asked (writer_of (A.name naming.now) seed writer files) (stage_told stage.now)) }
    ensures own { IfOk result (λ op. IfSome op (IsOfSession session.now)) }
    ensures address { IfOk result (λ op. IfSome op HasAddress) }
{
    match stage {
        Stage::Opening => Ok(Some(Op::Open {
            session: session.copy(alloc)?,
        })),
        Stage::Writing { file, leaves } => {
            if *file >= files {
                return Ok(None);
            }
            let plan = plan_of(alloc, seed, writer, *file)?;
            Ok(Some(block_op(alloc, naming, session, &plan, leaves.as_slice())?))
        }
        Stage::Rooting { file, handle } => Ok(Some(Op::Root {
            session: session.copy(alloc)?,
            key: file_key(alloc, writer, *file)?,
            handle: *handle,
        })),
        Stage::Dropping { file } => Ok(Some(Op::Drop {
            key: file_key(alloc, writer, *file)?,
        })),
    }
}
