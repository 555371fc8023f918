//! The options of a command line: two words each, a name and a value.
ghost use Rattle.std.specs.Prelude.{◌≡◌, IfSome, map, string_bytes};
ghost use Rattle.hs_script.specs.CommandLine.{options_of};
ghost use Rattle.hs_wanted.specs.Asked.{IsOptions, is_named};

use crate::given::with_option;
use hs_script::{CommandName, Options};

/// What the options among some words give: each is one that the command takes, and no name is there
/// twice.
pub(crate) fn options_of(which: CommandName, words: &[String]) -> Option<Options>
    ensures exact { result ≡ options_of which (map (λ word. string_bytes word) words.now) }
    ensures bounds { IfSome result IsOptions }
{
    let mut options = Options::new();
    let mut rest = words;
    'options: while let [name, value, more @ ..] = rest {
        if is_named(name.as_bytes(), more) {
            return None;
        }
        match with_option(which, name.as_bytes(), value.as_bytes(), options) {
            Some(given) => options = given,
            None => return None,
        }
        rest = more;
    }
    if rest.is_empty() { Some(options) } else { None }
}

/// Whether an option of this name is among some words.
fn is_named(name: &[u8], words: &[String]) -> bool
    ensures { result ≡ is_named name.now (map (λ word. string_bytes word) words.now) }
{
    let mut rest = words;
    'words: while let [word, _, more @ ..] = rest {
        if word.as_bytes() == name {
            return true;
        }
        rest = more;
    }
    false
}
