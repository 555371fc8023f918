//! What the words of a run say of a store: its shards and copies, and its limits.
use hs_casebook::{found, number_of, small_of, split_word};
use hs_limits::Limits;

/// Shards and copies as they are written, and the limits.
#[derive(Clone, Copy)]
pub struct Options {
    pub shards: u8,
    pub copies: u8,
    pub limits: Limits,
}

/// What an option lowers.
#[derive(Clone, Copy)]
enum Limit {
    Blocks,
    Roots,
    Sessions,
    Handles,
    Pool,
    Ops,
}

/// The options that lower a limit of 32 bits.
const LIMITS: [(&str, Limit); 6] = [
    ("--blocks", Limit::Blocks),
    ("--roots", Limit::Roots),
    ("--sessions", Limit::Sessions),
    ("--handles", Limit::Handles),
    ("--pool", Limit::Pool),
    ("--ops", Limit::Ops),
];

/// What the words say; None where they can't be read.
pub fn options_of(written: &[u8]) -> Option<Options> {
    let (_, rest) = split_word(written);
    let (_, rest) = split_word(rest);
    let (shards, rest) = split_word(rest);
    let (copies, rest) = split_word(rest);
    Some(Options {
        shards: small_of(shards)?,
        copies: small_of(copies)?,
        limits: limits_of(rest)?,
    })
}

/// The limits that pairs of a name and a number lower.
fn limits_of(options: &[u8]) -> Option<Limits> {
    let mut limits = Limits::greatest();
    let mut rest = options;
    for _ in 0..options.len() {
        if rest.is_empty() {
            break;
        }
        let (name, behind) = split_word(rest);
        let (value, behind) = split_word(behind);
        lower(&mut limits, name, number_of(value)?)?;
        rest = behind;
    }
    Some(limits)
}

/// Lowers a limit. An option that lowers none is passed over.
fn lower(limits: &mut Limits, name: &[u8], number: u64) -> Option<()> {
    if name == b"--epochs".as_slice() {
        limits.epochs = number;
        return Some(());
    }
    let number = u32::try_from(number).ok()?;
    if let Some(limit) = found(&LIMITS, name) {
        match limit {
            Limit::Blocks => limits.blocks = number,
            Limit::Roots => limits.roots = number,
            Limit::Sessions => limits.sessions = number,
            Limit::Handles => limits.handles = number,
            Limit::Pool => limits.pool = number,
            Limit::Ops => limits.ops = number,
        }
    }
    Some(())
}
