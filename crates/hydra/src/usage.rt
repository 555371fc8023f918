//! What is told of words that are outside the command language.
ghost use Rattle.std.specs.Prelude.{◌≡◌, OnOk, bytes_eq, map, string_bytes};
ghost use Rattle.std.specs.Io.KnownBytes.{Appends};
ghost use Rattle.std.specs.List.{list_any};
ghost use Rattle.hydra.specs.Usage.{later_in, later_option, later_part, later_text, usage_text};

use hs_top::shape_of;
use std::io;
use std::io::Write;

/// A part of the command language that a later step serves.
#[derive(Clone, Copy)]
pub enum Later {
    Visits,
}

/// Writes where the words of the command language are told, if these are outside it, and which of
/// them a later step serves.
pub fn tell_usage<E: Write>(errors: &mut E, words: &[String]) -> io::Result<()>
    ensures ok { OnOk result (Appends (E.contents errors.old) (E.contents errors.new)
        (usage_text (map (λ word. string_bytes word) words.now))) }
{
    match shape_of(words) {
        Some(_) => errors.write_all(b""),
        None => errors.write_all(later_line(later_of(words)).as_bytes()),
    }
}

/// Whether a later step serves a part of these words.
pub fn is_later(words: &[String]) -> bool {
    later_of(words).is_some()
}

// The line of words that are outside the language.
fn later_line(later: Option<Later>) -> &'static str
    ensures { result.now ≡ later_text later }
{
    match later {
        None => "hydra: see hydra --help\n",
        Some(Later::Visits) => "hydra: --visits is not served yet: see hydra --help\n",
    }
}

// The first part of the words that a later step serves.
fn later_of(words: &[String]) -> Option<Later>
    ensures { result ≡ later_in (map (λ word. string_bytes word) words.now) }
{
    match words {
        [command, _, _, _, options @ ..] => later_part(command.as_bytes(), options),
        _ => None,
    }
}

// The same of the words by their place.
#[tactic(auto, unfolding(crate::specs::Usage::later_part))]
fn later_part(command: &[u8], options: &[String]) -> Option<Later>
    ensures { result ≡ later_part command.now (map (λ word. string_bytes word) options.now) }
{
    if command == b"script".as_slice() {
        later_option(options)
    } else {
        None
    }
}

// The option among these words that a later step serves.
#[tactic(auto, unfolding(crate::specs::Usage::later_option))]
fn later_option(words: &[String]) -> Option<Later>
    ensures { result ≡ later_option (map (λ word. string_bytes word) words.now) }
{
    if has_word(words, b"--visits") {
        Some(Later::Visits)
    } else {
        None
    }
}

// Whether a word is among these.
fn has_word(words: &[String], wanted: &[u8]) -> bool
    ensures { result ≡ list_any (λ word. bytes_eq word wanted.now)
        (map (λ word. string_bytes word) words.now) }
{
    let mut rest = words;
    'words: while let [word, more @ ..] = rest {
        if word.as_bytes() == wanted {
            return true;
        }
        rest = more;
    }
    false
}
