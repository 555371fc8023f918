//! The generator: what the files of a load are made of.
ghost use Rattle.std.specs.Prelude.{◌≡◌, ◌*◌, ◌+◌, ◌^◌, ◌%◌, ℕ, IfOk, IsOkUnless, map};
ghost use Rattle.rand_core.specs.Stream.{Stream};
ghost use Rattle.rand_core.specs.Steps.{stream_of, steps_u64_high};
ghost use Rattle.rand_xoshiro.specs.Xoshiro256.{plus_plus};
ghost use Rattle.hs_script.specs.Plans.{drawn_words, plan_of};

use crate::ScriptFault;
use hs_limits::ListOf;
use rand_core::{Rng, SeedableRng};
use rand_xoshiro::Xoshiro256PlusPlus;
use std::alloc::{AllocError, Global};

/// What a file of a load is made of: the number of each leaf, and the tag of its last block.
#[derive(Debug, Drop)]
pub struct FilePlan {
    /// 3 to 12 numbers below 4,096, in order. A number may come again.
    pub leaves: ListOf<u64>,
    /// The writer and the file: no other file of the load has it.
    pub tag: u64,
}

/// The plan of a writer's file in the load of a seed.
pub fn generate(alloc: Global, seed: u64, writer: u8, file: u32) -> Result<FilePlan, ScriptFault>
    ensures ok { IfOk result (λ plan. plan ≡ plan_of seed writer file) }
    ensures err { IsOkUnless result ScriptFault.NoMemory }
{
    let tag = u64::from(writer) * 4_294_967_296 + u64::from(file);
    let mut rng = Xoshiro256PlusPlus::seed_from_u64(seed ^ tag);
    let count = 3 + rng.next_u64() % 10;
    let leaves = draw_leaves(alloc, &mut rng, count)?;
    Ok(FilePlan { leaves, tag })
}

/// So many leaves, each from one word of the generator.
fn draw_leaves(
    alloc: Global,
    rng: &mut Xoshiro256PlusPlus,
    count: u64,
) -> Result<ListOf<u64>, AllocError>
    ensures { IfOk result (λ leaves. leaves ≡
        map (λ word. word % 4096) (drawn_words count (stream_of (steps_u64_high plus_plus) rng.old))) }
{
    let mut leaves = ListOf::new(alloc);
    for _ in 0..count {
        leaves.push(rng.next_u64() % 4096)?;
    }
    Ok(leaves)
}
