//! The files of a load, and its summary.
use hs_script::{FilePlan, ScriptFault, WriterSum, generate, summary};
use std::alloc::{AllocError, Global};
use std::collections::BTreeSet;
use std::test::Fail;

/// How many different blocks the kept files of a load have, and how many files these are. A leaf is a
/// block of its number alone, and no two files have the same last block, since no two have the same tag.
fn kept_of(
    alloc: Global,
    seed: u64,
    writers: u8,
    files: u32,
) -> Result<(usize, usize), ScriptFault> {
    let mut leaves = BTreeSet::new(alloc);
    let mut tags = BTreeSet::new(alloc);
    for writer in 0..writers {
        for file in 0..files {
            if file % 4 != 3 {
                let plan = generate(alloc, seed, writer, file)?;
                add_plan(&plan, &mut leaves, &mut tags)?;
            }
        }
    }
    Ok((leaves.len().saturating_add(tags.len()), tags.len()))
}

/// The numbers of a file's leaves, and its tag, join the others.
fn add_plan(
    plan: &FilePlan,
    leaves: &mut BTreeSet<u64>,
    tags: &mut BTreeSet<u64>,
) -> Result<(), AllocError> {
    for leaf in plan.leaves.as_slice() {
        leaves.insert(*leaf)?;
    }
    tags.insert(plan.tag)?;
    Ok(())
}

#[test]
fn four_writers_of_twenty_files_keep_462_blocks(rt: HostRuntime) -> Result<(), Fail> {
    assert_eq!(rt; kept_of(rt.alloc(), 7, 4, 20)?, (462, 60));
    Ok(())
}

#[test]
fn eight_writers_of_twenty_five_files_keep_1100_blocks(rt: HostRuntime) -> Result<(), Fail> {
    assert_eq!(rt; kept_of(rt.alloc(), 1, 8, 25)?, (1100, 152));
    Ok(())
}

#[test]
fn a_load_is_summed_up(rt: HostRuntime) -> Result<(), Fail> {
    let mut text = Vec::new(rt.alloc());
    let sums = [
        WriterSum { files: 4, kept: 3 },
        WriterSum {
            files: 20,
            kept: 15,
        },
    ];
    summary(rt.alloc(), &sums, 18, 120, &mut text)?;
    let expected = b"writer 0 files 4 kept 3\nwriter 1 files 20 kept 15\nroots 18\nblocks 120\n";
    assert_eq!(rt; text.as_slice(), expected.as_slice());
    Ok(())
}
