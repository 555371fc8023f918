//! The words behind R, by the command.
ghost use Rattle.std.specs.Prelude.{◌≡◌, IfSome, map, string_bytes};
ghost use Rattle.hs_limits.specs.Shape.{IsShape};
ghost use Rattle.hs_script.specs.CommandLine.{audit_task, copy_by, copy_task, fetch_task, load_task, script_task, scrub_of, scrub_task, store_task, task_of};
ghost use Rattle.hs_wanted.specs.Asked.{IsAnyTask, IsTask};

use crate::options::options_of;
use crate::store::shape_word;
use hs_limits::Shape;
use hs_script::{CommandName, Folder, KeyWord, Task};

/// What they ask for.
#[tactic(auto, unfolding(hs_script::specs::CommandLine::task_of))]
pub(crate) fn task_of<'a>(which: CommandName, shape: Shape, words: &'a [String]) -> Option<Task<'a>>
    requires { IsShape shape }
    ensures exact { result ≡ task_of which shape (map (λ word. string_bytes word) words.now) }
    ensures task { IfSome result (IsTask shape) }
{
    match which {
        CommandName::Script => script_task(words),
        CommandName::Load => load_task(words),
        CommandName::Audit => audit_task(words),
        CommandName::Store => store_task(words),
        CommandName::Fetch => fetch_task(words),
        CommandName::Scrub => scrub_task(shape, words),
        CommandName::Copy => copy_task(words),
    }
}

fn script_task<'a>(words: &'a [String]) -> Option<Task<'a>>
    ensures exact { result ≡ script_task (map (λ word. string_bytes word) words.now) }
    ensures task { IsAnyTask result }
{
    let options = options_of(CommandName::Script, words)?;
    Some(Task::Script {
        limits: options.limits,
        visits: options.visits,
        cache: options.cache,
    })
}

// A load has a seed and writers.
fn load_task<'a>(words: &'a [String]) -> Option<Task<'a>>
    ensures exact { result ≡ load_task (map (λ word. string_bytes word) words.now) }
    ensures task { IsAnyTask result }
{
    let options = options_of(CommandName::Load, words)?;
    let seed = options.seed?;
    let writers = options.writers?;
    let files = options.files;
    Some(Task::Load {
        seed,
        writers,
        files,
    })
}

fn audit_task<'a>(words: &'a [String]) -> Option<Task<'a>>
    ensures exact { result ≡ audit_task (map (λ word. string_bytes word) words.now) }
    ensures task { IsAnyTask result }
{
    let _ = options_of(CommandName::Audit, words)?;
    Some(Task::Audit)
}

fn store_task<'a>(words: &'a [String]) -> Option<Task<'a>>
    ensures exact { result ≡ store_task (map (λ word. string_bytes word) words.now) }
    ensures task { IsAnyTask result }
{
    match words {
        [key, options @ ..] => {
            let key = KeyWord::new(key.as_bytes())?;
            let _ = options_of(CommandName::Store, options)?;
            Some(Task::Store { key })
        }
        [] => None,
    }
}

fn fetch_task<'a>(words: &'a [String]) -> Option<Task<'a>>
    ensures exact { result ≡ fetch_task (map (λ word. string_bytes word) words.now) }
    ensures task { IsAnyTask result }
{
    match words {
        [key, options @ ..] => {
            let key = KeyWord::new(key.as_bytes())?;
            let _ = options_of(CommandName::Fetch, options)?;
            Some(Task::Fetch { key })
        }
        [] => None,
    }
}

fn scrub_task<'a>(shape: Shape, words: &'a [String]) -> Option<Task<'a>>
    requires { IsShape shape }
    ensures exact { result ≡ scrub_task shape (map (λ word. string_bytes word) words.now) }
    ensures task { IfSome result (IsTask shape) }
{
    let options = options_of(CommandName::Scrub, words)?;
    scrub_of(shape, options.from)
}

// A peer that is copied from is of the store.
fn scrub_of<'a>(shape: Shape, from: Option<u8>) -> Option<Task<'a>>
    requires { IsShape shape }
    ensures exact { result ≡ scrub_of shape from }
    ensures task { IfSome result (IsTask shape) }
{
    match from {
        Some(peer) => {
            if peer < shape.shards * shape.copies {
                Some(Task::Scrub { from })
            } else {
                None
            }
        }
        None => Some(Task::Scrub { from }),
    }
}

fn copy_task<'a>(words: &'a [String]) -> Option<Task<'a>>
    ensures exact { result ≡ copy_task (map (λ word. string_bytes word) words.now) }
    ensures task { IsAnyTask result }
{
    match words {
        [key, dir, shards, copies, options @ ..] => copy_by(
            key.as_bytes(),
            dir.as_str(),
            shards.as_bytes(),
            copies.as_bytes(),
            options,
        ),
        _ => None,
    }
}

// A copy of a key to a second store.
fn copy_by<'a>(
    key: &'a [u8],
    dir: &'a str,
    shards: &[u8],
    copies: &[u8],
    words: &[String],
) -> Option<Task<'a>>
    ensures exact { result ≡ copy_by key.now dir.now shards.now copies.now
        (map (λ word. string_bytes word) words.now) }
    ensures task { IsAnyTask result }
{
    let key = KeyWord::new(key)?;
    let dir = Folder::new(dir)?;
    let shape = shape_word(shards, copies)?;
    let options = options_of(CommandName::Copy, words)?;
    Some(Task::Copy {
        key,
        dir,
        shape,
        delete: options.delete,
    })
}
