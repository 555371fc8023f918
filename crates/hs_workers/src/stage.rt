//! Where a writer stands, and what its answers make of that.
ghost use Rattle.std.specs.Prelude.{◌≡◌, ◌+◌, [], ℕ, IfOk};
ghost use Rattle.hs_script.specs.Loads.{Writer, behind_block, behind_root, stage_after, writer_of, writing};
ghost use Rattle.hs_script.specs.Plans.{plan_of};
ghost use Rattle.hs_workers.specs.Stages.{stage_told};

use crate::blocks::leaf_address;
use hs_block::Addresser;
use hs_limits::{Address, ListOf};
use hs_model::Reply;
use hs_script::{FilePlan, generate};
use std::alloc::{AllocError, Global};

/// Where a writer stands: it opens its session, writes the blocks of a file behind its leaves so far, keeps the
/// root of a file, or gives that up.
#[derive(Debug, Drop)]
pub enum Stage {
    Opening,
    Writing {
        file: u32,
        leaves: ListOf<(u32, Address)>,
    },
    Rooting {
        file: u32,
        handle: u32,
    },
    Dropping {
        file: u32,
    },
}

/// Where a writer stands behind an answer.
pub(crate) fn next_stage<A: Addresser>(
    alloc: Global,
    naming: &A,
    writer: u8,
    seed: u64,
    stage: Stage,
    reply: Reply,
) -> Result<Stage, AllocError>
    ensures { (files : ℕ) → IfOk result (λ next. stage_told next
        ≡ stage_after (writer_of (A.name naming.now) seed writer files) (stage_told stage) reply) }
{
    match stage {
        Stage::Opening => Ok(first_stage(alloc, 0)),
        Stage::Writing { file, leaves } => match reply {
            Reply::New { handle, .. } | Reply::Dup { handle, .. } => {
                let plan = plan_of(alloc, seed, writer, file)?;
                behind_block(alloc, naming, &plan, file, leaves, handle)
            }
            Reply::Stale { .. } => Ok(first_stage(alloc, file)),
            _ => next_file(alloc, file),
        },
        Stage::Rooting { file, .. } => match reply {
            Reply::Ok => behind_root(alloc, file),
            Reply::Stale { .. } => Ok(first_stage(alloc, file)),
            _ => next_file(alloc, file),
        },
        Stage::Dropping { file } => next_file(alloc, file),
    }
}

/// The plan of a file.
pub(crate) fn plan_of(
    alloc: Global,
    seed: u64,
    writer: u8,
    file: u32,
) -> Result<FilePlan, AllocError>
    ensures { IfOk result (λ plan. plan ≡ plan_of seed writer file) }
{
    match generate(alloc, seed, writer, file) {
        Ok(plan) => Ok(plan),
        Err(_) => Err(AllocError),
    }
}

/// A file is begun.
fn first_stage(alloc: Global, file: u32) -> Stage
    ensures { stage_told result ≡ writing file [] }
{
    Stage::Writing {
        file,
        leaves: ListOf::new(alloc),
    }
}

/// The next file is begun.
fn next_file(alloc: Global, file: u32) -> Result<Stage, AllocError>
    ensures { IfOk result (λ next. stage_told next ≡ writing (file + 1) []) }
{
    match file.checked_add(1) {
        Some(next) => Ok(first_stage(alloc, next)),
        None => Err(AllocError),
    }
}

/// Behind a file whose root is kept: each fourth file is given up again.
fn behind_root(alloc: Global, file: u32) -> Result<Stage, AllocError>
    ensures { IfOk result (λ next. stage_told next ≡ behind_root file) }
{
    if file % 4 == 3 {
        Ok(Stage::Dropping { file })
    } else {
        next_file(alloc, file)
    }
}

/// Behind a block that was given a handle: the next leaf, or the root.
fn behind_block<A: Addresser>(
    alloc: Global,
    naming: &A,
    plan: &FilePlan,
    file: u32,
    leaves: ListOf<(u32, Address)>,
    handle: u32,
) -> Result<Stage, AllocError>
    ensures { (w : Writer) → w.name ≡ A.name naming.now → w.plan file ≡ plan.now
        → IfOk result (λ next. stage_told next ≡ behind_block w file leaves handle) }
{
    let Some(leaf) = plan.leaves.as_slice().get(leaves.len()) else {
        return Ok(Stage::Rooting { file, handle });
    };
    let address = leaf_address(alloc, naming, *leaf)?;
    let mut leaves = leaves;
    leaves.push((handle, address))?;
    Ok(Stage::Writing { file, leaves })
}
