//! The words of a line.
ghost use Rattle.std.specs.Prelude.{◌≡◌, ◌∷◌, [], ◌<◌, ◌≤◌, length, Some, IfSome, MatchOption};
ghost use Rattle.std.specs.Option.{option_map};
ghost use Rattle.memchr.specs.Find.{IsFirstByte, is_byte};
ghost use Rattle.hs_script.specs.Giving.{more_words};
ghost use Rattle.hs_script.specs.Lines.{words_of};
ghost use Rattle.hs_script.specs.Reading.{only};

use memchr::memchr;

/// The first word of a line, and what stands behind it: nothing, or a space and more words.
#[tactic(auto, using(crate::proofs::WordsLemmas::words_unparted, crate::proofs::WordsLemmas::words_parted))]
pub(crate) fn split_word(line: &[u8]) -> (&[u8], &[u8])
    ensures words { words_of line.now ≡ result.0.now ∷ more_words result.1.now }
    ensures less { length result.1.now ≤ length line.now }
{
    match first_space(line) {
        None => (line, &[]),
        Some(end) => line.split_at(end),
    }
}

/// The place of the first space.
fn first_space(line: &[u8]) -> Option<usize>
    ensures { IsFirstByte (is_byte 32) line.now result }
{
    memchr(b' ', line)
}

/// The first of the words behind a word, and what stands behind it.
pub(crate) fn leading_word(rest: &[u8]) -> Option<(&[u8], &[u8])>
    ensures words { MatchOption result (more_words rest.now ≡ [])
        (λ p. more_words rest.now ≡ p.0.now ∷ more_words p.1.now) }
    ensures less { IfSome result (λ p. length p.1.now < length rest.now) }
{
    match rest {
        [] => None,
        [_, line @ ..] => Some(split_word(line)),
    }
}

/// The word behind a word, where there is one alone.
#[tactic(auto, using(crate::proofs::WordsLemmas::only_more))]
pub(crate) fn only_word(rest: &[u8]) -> Option<&[u8]>
    ensures { option_map (λ word. word.now) result
        ≡ only (λ word. Some word) (more_words rest.now) }
{
    match leading_word(rest) {
        Some((word, more)) => { if more.is_empty() { Some(word) } else { None } }
        None => None,
    }
}
