//! The words of the command line: how much is at rest, and how many rounds of events are done.
use crate::driving::drive;
use crate::filling::{WORKING, begin_drops, keep, open_all, store};
use crate::opening::opened;
use crate::rounds::{EVENTS, do_rounds};
use hs_core::Core;
use hs_desk::CoreFault;
use hs_model::Deed;
use std::alloc::Global;
use std::io::Write;
use std::rt::Env;
use std::{env, io};

/// Does what the two words ask. Whether they are two numbers and there was memory.
pub fn do_words<R: Env + AllocGlobal, W: Write>(rt: &R, out: &mut W) -> io::Result<bool> {
    match words_of(rt)? {
        Some((rest, rounds)) => do_asked(rt.alloc(), rest, rounds, out),
        None => {
            out.write_all(b"the words are two numbers: how much rests, rounds of events\n")?;
            Ok(false)
        }
    }
}

/// The words, where they are two numbers.
fn words_of<R: Env + AllocGlobal>(rt: &R) -> io::Result<Option<(u32, u32)>> {
    let mut words = env::args(rt)?.skip(1);
    let rest = number_of(words.next());
    let rounds = number_of(words.next());
    Ok(joined(rest, rounds))
}

/// Two numbers, where both are there.
fn joined(rest: Option<u32>, rounds: Option<u32>) -> Option<(u32, u32)> {
    Some((rest?, rounds?))
}

/// The number that a word is.
fn number_of(word: Option<String>) -> Option<u32> {
    word?.as_str().parse().ok()
}

/// Does what the words ask. Whether there was memory.
fn do_asked<W: Write>(alloc: Global, rest: u32, rounds: u32, out: &mut W) -> io::Result<bool> {
    match opened(alloc) {
        Ok(core) => measure(alloc, core, rest, rounds, out),
        Err(fault) => tell_fault(fault, out),
    }
}

/// Does it with the core that was opened.
fn measure<W: Write>(
    alloc: Global,
    mut core: Core,
    rest: u32,
    rounds: u32,
    out: &mut W,
) -> io::Result<bool> {
    match run(alloc, &mut core, rest, rounds) {
        Ok(()) => tell(&core, rounds, out),
        Err(fault) => tell_fault(fault, out),
    }
}

/// So many blocks, so many drops that rest, and so many rounds.
fn run(alloc: Global, core: &mut Core, rest: u32, rounds: u32) -> Result<(), CoreFault> {
    begin(alloc, core)?;
    fill(alloc, core, rest)?;
    do_rounds(alloc, core, rest, rounds)
}

/// The first views come, and all sessions are opened.
fn begin(alloc: Global, core: &mut Core) -> Result<(), CoreFault> {
    drive(alloc, core, 0, true)?;
    drive(alloc, core, WORKING, true)?;
    open_all(alloc, core)
}

/// So many blocks, and so many drops that rest.
fn fill(alloc: Global, core: &mut Core, rest: u32) -> Result<(), CoreFault> {
    store(alloc, core, rest)?;
    keep(alloc, core)?;
    begin_drops(alloc, core, rest)
}

/// Tells why no more was done.
fn tell_fault<W: Write>(fault: CoreFault, out: &mut W) -> io::Result<bool> {
    write!(out, "{fault}\n")?;
    Ok(false)
}

/// Tells what the core has.
fn tell<W: Write>(core: &Core, rounds: u32, out: &mut W) -> io::Result<bool> {
    let answers = core.journal().entries().len() as u64;
    write!(
        out,
        "{} blocks, {} operations at rest, {} events, {answers} answers, {} refusals\n",
        blocks_of(core),
        core.last_line().saturating_sub(answers),
        rounds.saturating_mul(EVENTS),
        refusals_of(core)
    )?;
    Ok(true)
}

/// How many blocks its shards have.
fn blocks_of(core: &Core) -> u32 {
    let mut blocks = 0u32;
    for shard in 0..core.shape().shards {
        blocks = blocks.saturating_add(core.catalogue(shard).count());
    }
    blocks
}

/// How many lines were refused.
fn refusals_of(core: &Core) -> u32 {
    let mut refusals = 0u32;
    for entry in core.journal().entries() {
        if matches!(entry.deed, Deed::Refused { .. }) {
            refusals = refusals.saturating_add(1);
        }
    }
    refusals
}
