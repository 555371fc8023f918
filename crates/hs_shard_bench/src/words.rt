//! The words of the command line: how many blocks, of how many groups the roots are dropped, and how
//! many steps are done.
use crate::filling::{empty, make};
use crate::plan::Plan;
use crate::steps::do_steps;
use hs_shard::{Catalogue, ShardFault};
use std::alloc::Global;
use std::io::Write;
use std::rt::Env;
use std::{env, io};

/// The three words.
struct Words {
    blocks: u32,
    dropped: u32,
    steps: u32,
}

/// Does what the three words ask. Whether they are three numbers and there was memory.
///
/// With no step the entries are made alone. The first step fills the catalogue, the second is a run in
/// which all blocks become counted, the third drops roots and is a run in which none does, the fourth
/// is the run that removes what those roots kept.
pub fn do_words<R: Env + AllocGlobal, W: Write>(rt: &R, out: &mut W) -> io::Result<bool> {
    match words_of(rt)? {
        Some(words) => do_asked(rt.alloc(), words, out),
        None => {
            out.write_all(
                b"the words are three numbers: blocks, groups that are dropped, steps\n",
            )?;
            Ok(false)
        }
    }
}

/// The words, where they are three numbers.
fn words_of<R: Env + AllocGlobal>(rt: &R) -> io::Result<Option<Words>> {
    let mut words = env::args(rt)?.skip(1);
    let blocks = number_of(words.next());
    let dropped = number_of(words.next());
    let steps = number_of(words.next());
    Ok(joined(blocks, dropped, steps))
}

/// Three numbers, where each is there.
fn joined(blocks: Option<u32>, dropped: Option<u32>, steps: Option<u32>) -> Option<Words> {
    Some(Words {
        blocks: blocks?,
        dropped: dropped?,
        steps: steps?,
    })
}

/// The number that a word is.
fn number_of(word: Option<String>) -> Option<u32> {
    word?.as_str().parse().ok()
}

/// Does what the words ask. Whether there was memory.
fn do_asked<W: Write>(alloc: Global, words: Words, out: &mut W) -> io::Result<bool> {
    let Words {
        blocks,
        dropped,
        steps,
    } = words;
    let plan = Plan::new(blocks);
    if steps == 0 {
        return tell_made(alloc, plan, out);
    }
    let mut catalogue = empty(alloc);
    match do_steps(alloc, &mut catalogue, plan, dropped, steps) {
        Ok(removed) => tell(&catalogue, removed, out),
        Err(fault) => tell_fault(fault, out),
    }
}

/// Makes the entries, and tells how many blocks there were.
fn tell_made<W: Write>(alloc: Global, plan: Plan, out: &mut W) -> io::Result<bool> {
    let made = make(alloc, plan)?;
    write!(out, "{made} blocks made\n")?;
    Ok(true)
}

/// Tells why no more was done.
fn tell_fault<W: Write>(fault: ShardFault, out: &mut W) -> io::Result<bool> {
    write!(out, "{fault}\n")?;
    Ok(false)
}

/// Tells what the catalogue has.
fn tell<W: Write>(catalogue: &Catalogue, removed: u32, out: &mut W) -> io::Result<bool> {
    write!(
        out,
        "{} blocks, {} roots, epoch {}, swept {}, {} blocks removed\n",
        catalogue.count(),
        catalogue.roots().retained(),
        catalogue.epoch(),
        catalogue.swept(),
        removed
    )?;
    Ok(true)
}
