//! The words of the command line, and the two that ask for no run.
ghost use Rattle.std.specs.Prelude.{◌≡◌, map, string_bytes};
ghost use Rattle.hydra.specs.CommandLine.{request_in};

use std::rt::Env;
use std::{env, io};

/// What the words ask for.
#[derive(Clone, Copy)]
pub enum Request {
    Help,
    Version,
    Run,
}

/// The words after the program's name. Words that aren't text are an error of the kind
/// `InvalidData`.
pub fn words_of<R: Env + AllocGlobal>(rt: &R) -> io::Result<Vec<String>> {
    let mut words = Vec::new(rt.alloc());
    for word in env::args(rt)?.skip(1) {
        words.push(word)?;
    }
    Ok(words)
}

/// What the words ask for: a text, where `--help` or `--version` is the only word.
pub fn request_of(words: &[String]) -> Request
    ensures { result ≡ request_in (map (λ word. string_bytes word) words.now) }
{
    match words {
        [word] => {
            if word.as_bytes() == b"--help".as_slice() {
                Request::Help
            } else if word.as_bytes() == b"--version".as_slice() {
                Request::Version
            } else {
                Request::Run
            }
        }
        _ => Request::Run,
    }
}
