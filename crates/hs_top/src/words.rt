//! The words of the command line.
ghost use Rattle.std.specs.Prelude.{◌≡◌, IfSome, map, string_bytes, true};
ghost use Rattle.hs_script.specs.CommandLine.{disks_of};
ghost use Rattle.hs_top.specs.Words.{is_load, is_load_task, is_served, second_in, second_of, served_on, shape_in};
ghost use Rattle.hs_wanted.specs.Asked.{IsInvocation};

use hs_limits::Shape;
use hs_script::{Invocation, Task};
use hs_wanted::{invocation_of, invocation_on};

/// The shape of the store that the words ask for. None exactly where they are outside the command
/// language, or ask for what is not served yet.
pub fn shape_of(words: &[String]) -> Option<Shape>
    ensures { result ≡ shape_in (map (λ word. string_bytes word) words.now) }
{
    let asked = invocation_of(words)?;
    if is_served(&asked.task) {
        Some(asked.shape)
    } else {
        None
    }
}

/// The shape of the second store that the words ask for. None exactly where they are not those of
/// `copy`.
pub fn second_shape(words: &[String]) -> Option<Shape>
    ensures { result ≡ second_in (map (λ word. string_bytes word) words.now) }
{
    let asked = invocation_of(words)?;
    second_of(&asked.task)
}

/// The shape of the second store, where a copy is asked for.
fn second_of(task: &Task<'_>) -> Option<Shape>
    ensures { result ≡ second_of task.now }
{
    match task {
        Task::Copy { shape, .. } => Some(*shape),
        Task::Script { .. }
        | Task::Load { .. }
        | Task::Audit
        | Task::Store { .. }
        | Task::Fetch { .. }
        | Task::Scrub { .. } => None,
    }
}

/// What the words ask for on so many disks, where it is served.
pub(crate) fn served_on<'a>(words: &'a [String], disks: usize) -> Option<Invocation<'a>>
    ensures exact { result ≡ served_on (map (λ word. string_bytes word) words.now) disks }
    ensures bounds { IfSome result IsInvocation }
    ensures count { IfSome result (λ asked. disks ≡ disks_of asked) }
    ensures served { IfSome result (λ asked. is_served asked.task ≡ true) }
    ensures load { IfSome result (λ asked.
        is_load (map (λ word. string_bytes word) words.now) ≡ is_load_task asked.task) }
{
    let asked = invocation_on(words, disks)?;
    if is_served(&asked.task) {
        Some(asked)
    } else {
        None
    }
}

/// Whether what is asked for is served so far.
fn is_served(task: &Task<'_>) -> bool
    ensures { result ≡ is_served task.now }
{
    match task {
        Task::Script {
            limits: _,
            visits: None,
            cache: _,
        }
        | Task::Load { .. }
        | Task::Audit
        | Task::Store { .. }
        | Task::Fetch { .. }
        | Task::Scrub { .. }
        | Task::Copy { .. } => true,
        Task::Script { .. } => false,
    }
}

/// Whether the first word is `load`, which is not for `hydra_alone`.
pub fn is_load(words: &[String]) -> bool
    ensures { result ≡ is_load (map (λ word. string_bytes word) words.now) }
{
    match words {
        [command, ..] => command.as_bytes() == b"load".as_slice(),
        [] => false,
    }
}
