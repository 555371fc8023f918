//! All words of a command line.
ghost use Rattle.std.specs.Prelude.{◌≡◌, ◌*◌, IfSome, map, string_bytes};
ghost use Rattle.hs_limits.specs.Shape.{IsShape};
ghost use Rattle.hs_script.specs.CommandLine.{command_of, disks_of, invocation_by, invocation_of, invocation_on, script_on, wanted, wanted_of};
ghost use Rattle.hs_wanted.specs.Asked.{IsInvocation, as_wanted};

use crate::store::shape_word;
use crate::task::task_of;
use hs_limits::{Limits, Shape};
use hs_script::{CommandName, Folder, Invocation, Task};

/// What the words ask for. None exactly where they are outside the command language, or where there
/// are not as many disks as they are run on.
pub fn invocation_on<'a>(words: &'a [String], disks: usize) -> Option<Invocation<'a>>
    ensures exact { result ≡ invocation_on (map (λ word. string_bytes word) words.now) disks }
    ensures bounds { IfSome result IsInvocation }
    ensures count { IfSome result (λ asked. disks ≡ disks_of asked) }
{
    let asked = invocation_of(words)?;
    if disks == disks_of(&asked) {
        Some(asked)
    } else {
        None
    }
}

/// On how many disks it is run: one for each peer of the store, and of the second one of a copy.
fn disks_of(asked: &Invocation<'_>) -> usize
    requires { IsInvocation asked.now }
    ensures { result ≡ disks_of asked.now }
{
    let first = usize::from(asked.shape.shards * asked.shape.copies);
    match &asked.task {
        Task::Copy { shape, .. } => first + usize::from(shape.shards * shape.copies),
        Task::Script { .. }
        | Task::Load { .. }
        | Task::Audit
        | Task::Store { .. }
        | Task::Fetch { .. }
        | Task::Scrub { .. } => first,
    }
}

/// What `COMMAND DIR G R` and the words behind them ask for, whatever disks there are. None exactly
/// where they are outside the command language.
#[tactic(auto, unfolding(hs_script::specs::CommandLine::invocation_of))]
pub fn invocation_of<'a>(words: &'a [String]) -> Option<Invocation<'a>>
    ensures exact { result ≡ invocation_of (map (λ word. string_bytes word) words.now) }
    ensures bounds { IfSome result IsInvocation }
{
    match words {
        [command, dir, shards, copies, rest @ ..] => invocation_by(
            command.as_bytes(),
            dir.as_str(),
            shards.as_bytes(),
            copies.as_bytes(),
            rest,
        ),
        _ => None,
    }
}

// The same of the words by their place.
fn invocation_by<'a>(
    command: &[u8],
    dir: &'a str,
    shards: &[u8],
    copies: &[u8],
    words: &'a [String],
) -> Option<Invocation<'a>>
    ensures exact { result ≡ invocation_by command.now dir.now shards.now copies.now
        (map (λ word. string_bytes word) words.now) }
    ensures bounds { IfSome result IsInvocation }
{
    let which = command_of(command)?;
    let dir = Folder::new(dir)?;
    let shape = shape_word(shards, copies)?;
    let task = task_of(which, shape, words)?;
    Some(Invocation { dir, shape, task })
}

// The command that a word names.
fn command_of(word: &[u8]) -> Option<CommandName>
    ensures { result ≡ command_of word.now }
{
    if word == b"script".as_slice() {
        Some(CommandName::Script)
    } else if word == b"load".as_slice() {
        Some(CommandName::Load)
    } else if word == b"audit".as_slice() {
        Some(CommandName::Audit)
    } else if word == b"store".as_slice() {
        Some(CommandName::Store)
    } else if word == b"fetch".as_slice() {
        Some(CommandName::Fetch)
    } else if word == b"scrub".as_slice() {
        Some(CommandName::Scrub)
    } else if word == b"copy".as_slice() {
        Some(CommandName::Copy)
    } else {
        None
    }
}

/// The shape and the limits that the words of a script ask for. None exactly where they are not
/// those of a script, or give an option that is not served, or where there is not a disk for each
/// peer.
pub fn wanted_of(words: &[String], disks: usize) -> Option<(Shape, Limits)>
    ensures exact { as_wanted result
        ≡ wanted_of (map (λ word. string_bytes word) words.now) disks }
    ensures shape { IfSome result (λ asked. IsShape asked.0) }
    ensures count { IfSome result (λ asked. disks ≡ asked.0.shards * asked.0.copies) }
{
    match wanted(words) {
        Some((shape, limits)) => {
            if disks == usize::from(shape.shards * shape.copies) {
                Some((shape, limits))
            } else {
                None
            }
        }
        None => None,
    }
}

/// The same, whatever disks there are.
#[tactic(auto, unfolding(hs_script::specs::CommandLine::wanted))]
pub fn wanted(words: &[String]) -> Option<(Shape, Limits)>
    ensures exact { as_wanted result ≡ wanted (map (λ word. string_bytes word) words.now) }
    ensures shape { IfSome result (λ asked. IsShape asked.0) }
{
    let asked = invocation_of(words)?;
    match asked.task {
        Task::Script {
            limits,
            visits: None,
            cache: None,
        } => Some((asked.shape, limits)),
        _ => None,
    }
}
