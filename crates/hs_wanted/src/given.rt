//! One option: what its value makes of the options before it.
ghost use Rattle.std.specs.Prelude.{◌≡◌, IfSome};
ghost use Rattle.hs_limits.specs.Limits.{IsLimits};
ghost use Rattle.hs_script.specs.CommandLine.{answer_of, with_option};
ghost use Rattle.hs_wanted.specs.Asked.{IsOptions, lowered};
ghost use Rattle.hs_script.specs.declared.invocation.CommandName.TheVariants as command;

use crate::number::{long_between, number_between, small_between};
use hs_limits::Limits;
use hs_script::{CommandName, Options};

/// The options with one more, where the command takes it.
pub(crate) fn with_option(
    which: CommandName,
    name: &[u8],
    value: &[u8],
    options: Options,
) -> Option<Options>
    ensures exact { result ≡ with_option which name.now value.now options }
    ensures bounds { IsOptions options → IfSome result IsOptions }
{
    match which {
        CommandName::Script => with_script_option(name, value, options),
        CommandName::Load => with_load_option(name, value, options),
        CommandName::Scrub => with_scrub_option(name, value, options),
        CommandName::Copy => with_copy_option(name, value, options),
        CommandName::Audit | CommandName::Store | CommandName::Fetch => None,
    }
}

/// The same of a script.
fn with_script_option(name: &[u8], value: &[u8], options: Options) -> Option<Options>
    ensures exact { result ≡ with_option command.Script name.now value.now options }
    ensures bounds { IsOptions options → IfSome result IsOptions }
{
    if name == b"--visits".as_slice() {
        let visits = Some(answer_of(value)?);
        Some(Options { visits, ..options })
    } else if name == b"--cache".as_slice() {
        let cache = Some(number_between(0, 4096, value)?);
        Some(Options { cache, ..options })
    } else {
        let limits = lowered(name, value, options.limits)?;
        Some(Options { limits, ..options })
    }
}

/// The limits with the number of an option that lowers one.
fn lowered(name: &[u8], value: &[u8], limits: Limits) -> Option<Limits>
    ensures exact { result ≡ lowered name.now value.now limits }
    ensures bounds { IsLimits limits → IfSome result IsLimits }
{
    let most = Limits::greatest();
    if name == b"--ops".as_slice() {
        let ops = number_between(1, most.ops, value)?;
        Some(Limits { ops, ..limits })
    } else if name == b"--blocks".as_slice() {
        let blocks = number_between(1, most.blocks, value)?;
        Some(Limits { blocks, ..limits })
    } else if name == b"--roots".as_slice() {
        let roots = number_between(1, most.roots, value)?;
        Some(Limits { roots, ..limits })
    } else if name == b"--sessions".as_slice() {
        let sessions = number_between(1, most.sessions, value)?;
        Some(Limits { sessions, ..limits })
    } else if name == b"--handles".as_slice() {
        let handles = number_between(1, most.handles, value)?;
        Some(Limits { handles, ..limits })
    } else if name == b"--pool".as_slice() {
        let pool = number_between(16, most.pool, value)?;
        Some(Limits { pool, ..limits })
    } else if name == b"--epochs".as_slice() {
        let epochs = long_between(1, most.epochs, value)?;
        Some(Limits { epochs, ..limits })
    } else {
        None
    }
}

/// The same of a load.
fn with_load_option(name: &[u8], value: &[u8], options: Options) -> Option<Options>
    ensures exact { result ≡ with_option command.Load name.now value.now options }
    ensures bounds { IsOptions options → IfSome result IsOptions }
{
    if name == b"--seed".as_slice() {
        let seed = Some(long_between(0, u64::MAX, value)?);
        Some(Options { seed, ..options })
    } else if name == b"--writers".as_slice() {
        let writers = Some(small_between(1, 8, value)?);
        Some(Options { writers, ..options })
    } else if name == b"--files".as_slice() {
        let files = small_between(1, 100, value)?;
        Some(Options { files, ..options })
    } else {
        None
    }
}

/// The same of a scrub.
fn with_scrub_option(name: &[u8], value: &[u8], options: Options) -> Option<Options>
    ensures exact { result ≡ with_option command.Scrub name.now value.now options }
    ensures bounds { IsOptions options → IfSome result IsOptions }
{
    if name == b"--from".as_slice() {
        let from = Some(small_between(0, 255, value)?);
        Some(Options { from, ..options })
    } else {
        None
    }
}

/// The same of a copy.
fn with_copy_option(name: &[u8], value: &[u8], options: Options) -> Option<Options>
    ensures exact { result ≡ with_option command.Copy name.now value.now options }
    ensures bounds { IsOptions options → IfSome result IsOptions }
{
    if name == b"--delete".as_slice() {
        let delete = Some(number_between(1, 1000, value)?);
        Some(Options { delete, ..options })
    } else {
        None
    }
}

/// Yes or no.
fn answer_of(word: &[u8]) -> Option<bool>
    ensures { result ≡ answer_of word.now }
{
    if word == b"yes".as_slice() {
        Some(true)
    } else if word == b"no".as_slice() {
        Some(false)
    } else {
        None
    }
}
